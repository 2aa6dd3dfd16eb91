// Theorems on thin routines over lent records, by which README.md names the crate. It has no function of its own.
//
// The checker walks every function of this repository by itself, and none is proved by a theorem on its shape any more. What is used are the forms by which
// whole contracts are cited (proofs/Form.antt, proofs/Callee.antt), in crates/stack, crates/adomvik and crates/determined. The theorems are on functions with
// every decision in a function by value, in one of two ways.
//
// Where such a function looks, branches, and ends with a call, it is put together of pieces, for any list of parameters: by value, `&[T]`, `&mut [T]` and `&mut T`. Its file names the form
// of the function and writes the body as a term; the locals and the code are read off that term (proofs/Pieces.antt, proofs/Rows.antt and, for the arguments of a call, proofs/Hands.antt).
//
// looks           f()    f(x)    f(x, cells)        nothing, asks-of, asks: a function by value, with slices shown. f: r ≡ F x cells
//                 f(*b, ..)                         copied, of a `&mut T` that is the first parameter
//                 f(row)                            asks-row, asks-slice: of a `&mut [T]` or a `&[T]` that is the first parameter. f: r ≡ F row
//                 row.len()                         how-many, of a `&mut [T]` that is the first parameter
// pieces          let y = look; piece               lets
//                 if look { piece } piece           branch
//                 look                              answers: this is returned, and all that is lent stays as it is
//                 f(row, x, ..)                     calls-all, calls-on: its answer is returned. f takes all parameters, or some and values at hand
//                 let a = f(row, x, ..); h(a)       tells-on: what h makes of the answer is returned
//                 let a = f(row, x, ..); h(y, a)    tells-with: so with a value at hand
//                 let at = look; if at < row.len() { piece } piece        at-place, of a `&mut [T]` that is the first parameter; at-shown, of a `&[T]`
//                 f(&mut row[at], x, ..)            lends-at: its answer is returned
//                 .. row[at] ..                     copies-at, of a `&[T]`: a piece that has a copy of the element at hand, as for a call by value
//
// Else it is one of the shapes below, each in proofs/NAME.antt, statement for statement, and is proved by a file that fills in the records Shape and Knows of its theorem and cites `meets`.
//
// T is a declared struct of plain fields. X, N, K, S, Y, Z, B and O are plain: a number, a bool, a declared struct or enum of such, an array of such. E and G are what a
// slice can hold, and where they fill a local array they are plain too. Names of locals, fields and functions are free; statements, their order and the order of
// parameters are not. A function by value returns the record and the answer as a struct of these two, in this order. No callee has a `requires` but f3 of Framed. In a contract `row`
// stands for now (row .entry) and `row'` for now (row .exit). The length of an array is a capital too: [E; K].
//
// Through         fn g(b: &mut T, x: X) -> O { let s = f(*b, x); *b = s.board; s.answer }
//                 f: r ≡ F b x                  g: (r ≡ F b x .answer) × (b' ≡ F b x .board)
// Beside          fn g(b: &mut T, x: X, cells: &[E]) -> O { let s = f(*b, x, cells); *b = s.board; s.answer }
//                 f: r ≡ F b x cells            g: (r ≡ F b x cells .answer) × (b' ≡ F b x cells .board)
// BesideTwo       fn g(b: &mut T, x: X, z: Z, cells: &[E]) -> O { let s = f(*b, x, z, cells); *b = s.board; s.answer }
//                 f: r ≡ F b x z cells          g: (r ≡ F b x z cells .answer) × (b' ≡ F b x z cells .board)
// Twice           fn g(b: &mut T, x: X, z: Z, cells: &[E]) -> O { let s = f(*b, x, z, cells); *b = s.board; let n = s.note; if done(n) { return told(n); } let c = *b; let t = h(c, n); *b = t.board; t.answer }
//                 f: r ≡ F b x z cells          done: r ≡ is-done n      told: r ≡ tells n        h: r ≡ G b n             g: (r ≡ end (F b x z cells) .answer) × (b' ≡ end (F b x z cells) .board)
// Every           fn g(row: &[T]) -> bool { if f0(row.len()) { return false; } let mut i = 0; while i < row.len() { if f(row[i]) { return false; } i += 1; } true }
//                 f0: r ≡ bad-count n           f: r ≡ bad b             g: r ≡ A row
// Fold            fn g(row: &[T]) -> B { let mut acc = init(); let mut i = 0; while i < row.len() { acc = f(acc, i, row[i]); i += 1; } acc }
//                 init: r ≡ start               f: r ≡ F acc i b         g: r ≡ A row
// Sought          fn g(row: &[T]) -> O { let mut found = no(); let mut i = 0; 'row: while i < row.len() { let b = row[i]; let n = size(b); let mut j = 0;
//                                        while j < n { if hit(b, j) { found = at(i, j); break 'row; } j += 1; } i += 1; } found }
//                 no: r ≡ none                  size: r ≡ size-of b      hit: r ≡ is-hit b j      at: r ≡ found i j        g: r ≡ A row
// Framed          fn g(row: &mut [T], bytes: &[E], reply: &mut [G]) -> O { let d = f1(bytes, reply.len()); if done(d) { return told(d); } let z = part(d); let y = f2(row, z); f3(reply, d, y) }
//                 f1: r ≡ P bytes room          done: r ≡ is-done d      told: r ≡ tells d   part: r ≡ part-of d   f2: (r ≡ A2 row z) × (row' ≡ R2 row z)   f3: (r ≡ A3 reply d y) × (reply' ≡ C3 reply d y), requires what it needs of reply
//                 g: (r ≡ A row bytes reply) × ((row' ≡ R row bytes reply) × (reply' ≡ C row bytes reply))
// LendsSlice      fn g(boards: [T; N], n: usize, cells: &[E]) -> Q { let mut row = boards; let answer = f(&mut row[..n], cells); Q { boards: row, answer: answer } }
//                 requires n ≤ N                f: (r ≡ F row cells) × (row' ≡ R row cells)                 g: r ≡ A boards n cells
// LendsBeside     fn g(boards: [T; N], n: usize, k: K, x: X, cells: &[E]) -> Q { let mut row = boards; let answer = f(&mut row[..n], k, x, cells); Q { boards: row, answer: answer } }
//                 requires n ≤ N                f: (r ≡ F row k x cells) × (row' ≡ R row k x cells)         g: r ≡ A boards n k x cells
// LendsFrame      fn g(boards: [T; N], n: usize, bytes: &[E], reply: &mut [G]) -> Q { let mut row = boards; let answer = f(&mut row[..n], bytes, reply); Q { boards: row, answer: answer } }
//                 requires n ≤ N                f as g of Framed         g: (r ≡ A boards n bytes reply) × (reply' ≡ C boards n bytes reply)
// LendsShared     fn g(boards: [T; N], n: usize) -> O { f(&boards[..n]) }
//                 requires n ≤ N                f: r ≡ F row             g: r ≡ A boards n
// Lined           fn g(row: &mut [T], s: S, block: &[E], out: &mut [G]) -> O { let d = f1(s, block); let z = part(d); let y = f2(row, z); f3(out, d, y) }
//                 f1: r ≡ P s block             part: r ≡ part-of d      f2: (r ≡ A2 row z) × (row' ≡ R2 row z)   f3: (r ≡ A3 out d y) × (out' ≡ C3 out d y)
//                 g: (r ≡ A row s block out) × ((row' ≡ R row s block out) × (out' ≡ C row s block out))
// Turning         fn g(row: &mut [T], s: S, block: &[E], out: &mut [G]) -> S { let mut st = s; while more(st) { st = f(row, st, block, out); } st }
//                 more: r ≡ m st                f as g of Lined, with S for O                  g as f
// Filling         fn g(row: &mut [T], x: S, cells: &[E]) -> S { let mut st = x; while more(st) { st = f(row, st, cells); } st }
//                 more: r ≡ m st                f: (r ≡ F row st cells) × (row' ≡ R row st cells)              g as f
// LendsRun        fn g(boards: [T; N], n: usize, s: S, block: &[E], out: &mut [G]) -> Q { let mut row = boards; let state = f(&mut row[..n], s, block, out); Q { boards: row, state: state } }
//                 requires n ≤ N                f as g of Lined          g: (r ≡ A boards n s block out) × (out' ≡ C boards n s block out)
// Listed          fn g(row: &mut [T], x: X) -> O { let n = f1(x); let z = f2(x); let cells = f3(x); let m = f4(x); let a = f(row, n, z, &cells[..m]); h(a) }
//                 f1: r ≡ number x    f2: r ≡ other x    f3: r ≡ cells x, a [E; K]    f4: r ≡ many x, with many x ≤ K    f: (r ≡ F row n z cells) × (row' ≡ R row n z cells)    h: r ≡ told a
//                 g: (r ≡ A row x) × (row' ≡ B row x)
// ListedOnly      fn g(row: &mut [T], x: X) -> O { let cells = f1(x); let m = f2(x); let a = f(row, &cells[..m]); h(a) }
//                 f1: r ≡ cells x, a [E; K]    f2: r ≡ many x, with many x ≤ K    f: (r ≡ F row cells) × (row' ≡ R row cells)    h: r ≡ told a
//                 g as g of Listed
// ListedFrame     fn g(row: &mut [T], x: X) -> O { let bytes = f1(x); let m = f2(x); let mut reply = f3(); let a = f(row, &bytes[..m], &mut reply); h(a) }
//                 f1: r ≡ bytes x, a [E; K]    f2: r ≡ many x, with many x ≤ K    f3: r ≡ blank, a [G; L]    f as g of Framed    h: r ≡ told a
//                 g as g of Listed
//
// Under the theorems: Plain (plain types), Form (a function by the kinds of its parameters: its signature and contract, a call of it, how a walk of it begins and ends), Callee (the forms that
// several functions have or are called by), Steps (MIR in words, with one step for each), Walk (a row's arithmetic, the freeing of the locals), Lent (a lent row or record, lent on), Frame (all locals
// as one item, under the pieces), LendArray (a local array, lent), OverRow (a loop over a shared row, left early or not: Every, Fold and Sought).
#![tactic(auto)]
