//! Faults of programs, row by row of the table, each beside a program that is accepted; the places are worked
//! out by hand.

use crate::support::typing::first_difference;
use std::alloc::Global;
use std::process::Abort;

/// Names in scope and not.
static NAMES: [(&str, &str); 15] = [
    ("int main(void) { int x; x = 1; }", "fits"),
    ("int main(void) { x = 1; }", "1 at 1:18"),
    ("int main(void) { int x; { int y; } y = 1; }", "1 at 1:36"),
    ("int main(void) { int x = x; }", "fits"),
    ("int main(void) { int x = y, y; }", "1 at 1:26"),
    ("int main(void) { int x; { int x = x; } }", "fits"),
    (
        "int main(void) { for (int i = 0; i < 1; i++) ; i = 1; }",
        "1 at 1:48",
    ),
    (
        "int main(void) { int i; for (i = 0; i < 1; i++) ; }",
        "fits",
    ),
    (
        "int f(void) { return g(); } int g(void) { return 1; } int main(void) { return f(); }",
        "fits",
    ),
    ("int g(void); int main(void) { return g(); }", "1 at 1:38"),
    (
        "void g(void); int main(void) { int x; x = g(1); }",
        "1 at 1:43",
    ),
    (
        "int x; int f(void) { return x; } int main(void) { return f(); }",
        "fits",
    ),
    (
        "int f(void) { return x; } int x; int main(void) { return 0; }",
        "1 at 1:22",
    ),
    ("int main(void) { int x; { x = 1; int x; x = 2; } }", "fits"),
    (
        "int f(int a) { return a; } int main(void) { return a; }",
        "1 at 1:52",
    ),
];

/// Names declared once and twice in a scope.
static TWICE: [(&str, &str); 17] = [
    ("int main(void) { int x; int x; }", "2 at 1:29"),
    ("int main(void) { int x; { int x; } }", "fits"),
    ("int main(void) { int x, x; }", "2 at 1:25"),
    (
        "int f(int a) { int a; return 0; } int main(void) { return 0; }",
        "2 at 1:20",
    ),
    (
        "int f(int a) { { int a; } return 0; } int main(void) { return 0; }",
        "fits",
    ),
    (
        "int f(int a, int a) { return 0; } int main(void) { return 0; }",
        "2 at 1:18",
    ),
    (
        "int f(int a, int a); int f(int a, int b) { return 0; } int main(void) { return 0; }",
        "fits",
    ),
    ("int x; int x; int main(void) { return 0; }", "2 at 1:12"),
    ("int x; int main(void) { int x; return 0; }", "fits"),
    (
        "int f(void) { return 0; } int f(void) { return 0; } int main(void) { return 0; }",
        "2 at 1:31",
    ),
    (
        "int f(void); int f(void); int f(void) { return 0; } int f(void); int main(void) { return 0; }",
        "fits",
    ),
    (
        "int f; int f(void) { return 0; } int main(void) { return 0; }",
        "2 at 1:12",
    ),
    (
        "int f(void) { return 0; } int f; int main(void) { return 0; }",
        "2 at 1:31",
    ),
    (
        "int main(void) { int f; f = 1; } int f(void) { return 0; }",
        "fits",
    ),
    (
        "int main(void) { for (int i = 0; i < 1; i++) { int i; } }",
        "fits",
    ),
    (
        "int main(void) { int i; for (int i = 0; i < 1; i++) ; }",
        "fits",
    ),
    ("int main(int main) { return main; }", "fits"),
];

/// Names and types that fit their uses or not.
static KINDS: [(&str, &str); 61] = [
    ("int main(void) { int a[2]; int x; x = a; }", "3 at 1:39"),
    ("int main(void) { int a[2]; int x; x = a[1]; }", "fits"),
    ("int main(void) { int a[2]; a = 1; }", "3 at 1:28"),
    ("int main(void) { int a[2]; a[0] = 1; }", "fits"),
    ("int main(void) { int x; x = (main); }", "3 at 1:30"),
    ("int main(void) { main = 1; }", "3 at 1:18"),
    ("int main(void) { int x; x(); }", "3 at 1:25"),
    ("int main(void) { int x; x = x(1); }", "3 at 1:29"),
    ("int main(void) { main(); }", "3 at 1:18"),
    ("int main(void) { int x; x = main(); }", "3 at 1:29"),
    ("int main(void) { int x; x = x[0]; }", "3 at 1:29"),
    ("int main(void) { int x; x[0] = 1; }", "3 at 1:25"),
    ("int main(void) { main[0] = 1; }", "3 at 1:18"),
    (
        "void f(void) { } int main(void) { return f(); }",
        "3 at 1:42",
    ),
    ("void f(void) { } int main(void) { f(); }", "fits"),
    (
        "int f(void) { return 1; } int main(void) { f(); return f(); }",
        "fits",
    ),
    ("int main(void) { void x; }", "3 at 1:23"),
    ("void x; int main(void) { return 0; }", "3 at 1:6"),
    (
        "int f(int a, void b) { return 0; } int main(void) { return 0; }",
        "3 at 1:19",
    ),
    (
        "int f(void, int a); int main(void) { return 0; }",
        "3 at 1:7",
    ),
    ("int f(void); int main(void) { return 0; }", "fits"),
    ("int x = 1 + 2; int main(void) { return x; }", "fits"),
    (
        "int y; int x = y; int main(void) { return x; }",
        "3 at 1:12",
    ),
    (
        "int f(void) { return 1; } int x = f(); int main(void) { return x; }",
        "3 at 1:31",
    ),
    ("int a[2] = {1, 2}; int main(void) { return 0; }", "fits"),
    (
        "int y; int a[2] = {1, y}; int main(void) { return 0; }",
        "3 at 1:12",
    ),
    ("int x = 1 / 0; int main(void) { return x; }", "fits"),
    ("int main(void) { int x = {1}; }", "3 at 1:22"),
    ("int main(void) { int a[2] = 1; }", "3 at 1:22"),
    ("int main(void) { int a[2] = {1}; }", "fits"),
    ("void main(void) { }", "fits"),
    ("int main() { return 0; }", "fits"),
    ("short main(void) { return 0; }", "3 at 1:7"),
    ("unsigned main(void) { return 0; }", "3 at 1:10"),
    ("long main(void) { return 0; }", "fits"),
    ("signed main(void) { return 0; }", "fits"),
    (
        "unsigned main(void); int main(void) { return 0; }",
        "3 at 1:10",
    ),
    (
        "int f(int a); int f(unsigned a) { return 0; } int main(void) { return 0; }",
        "3 at 1:19",
    ),
    (
        "int f(int a); int f(const long b) { return 0; } int main(void) { return 0; }",
        "fits",
    ),
    (
        "int f(int a); int f(int a, int b) { return 0; } int main(void) { return 0; }",
        "3 at 1:19",
    ),
    (
        "int f(); int f(int a, int b) { return 0; } int main(void) { return f(1, 2); }",
        "fits",
    ),
    (
        "int f() { return 0; } int f(int a); int main(void) { return 0; }",
        "3 at 1:27",
    ),
    (
        "int f(int a[]); int f(int a) { return 0; } int main(void) { return 0; }",
        "3 at 1:21",
    ),
    (
        "int f(int a[3]); int f(int a[]) { return 0; } int main(void) { return 0; }",
        "fits",
    ),
    (
        "void f(void); int f(void) { return 0; } int main(void) { return 0; }",
        "3 at 1:19",
    ),
    (
        "int f(int a); int f(); int f(char a); int main(void) { return 0; }",
        "3 at 1:28",
    ),
    (
        "int f(int a[]) { return a[0]; } int main(void) { int x; return f(x); }",
        "3 at 1:66",
    ),
    (
        "int f(int a[]) { return a[0]; } int main(void) { int x[3]; return f(x) + f((x)); }",
        "fits",
    ),
    (
        "int f(int a[]) { return a[0]; } int main(void) { char x[3]; return f((x)); }",
        "3 at 1:70",
    ),
    (
        "int f(int a[]) { return a[0]; } int main(void) { long x[3]; return f(x); }",
        "fits",
    ),
    (
        "int f(int a[]) { return a[0]; } int main(void) { int x[3]; return f(x[0]); }",
        "3 at 1:69",
    ),
    (
        "int f(int a[]) { return a[0]; } int main(void) { return f(-1); }",
        "3 at 1:59",
    ),
    (
        "int f(int a) { return a; } int main(void) { int x[3]; return f((x)); }",
        "3 at 1:65",
    ),
    ("int main(void) { int x; x = (void) 1; }", "3 at 1:29"),
    ("int main(void) { int x; x = (char) 1; }", "fits"),
    (
        "void f(void) { return 1; } int main(void) { return 0; }",
        "3 at 1:16",
    ),
    (
        "void f(void) { return; } int main(void) { return 0; }",
        "fits",
    ),
    (
        "int f(void) { return; } int main(void) { return 0; }",
        "fits",
    ),
    ("void main(void) { return 1; }", "3 at 1:19"),
    ("int f(void); int main(void) { int x; x = f; }", "3 at 1:42"),
    ("int main(void) { int x; x = f; } int f(void);", "3 at 1:29"),
];

/// Arguments and initial values.
static COUNTS: [(&str, &str); 7] = [
    (
        "int f(int a) { return a; } int main(void) { return f(); }",
        "4 at 1:52",
    ),
    (
        "int f(int a) { return a; } int main(void) { return f(1); }",
        "fits",
    ),
    (
        "int f(int a) { return a; } int main(void) { f(1, 2); }",
        "4 at 1:45",
    ),
    (
        "int f() { return 0; } int main(void) { return f(1); }",
        "4 at 1:47",
    ),
    ("int main(void) { int a[2] = {1, 2, 3}; }", "4 at 1:22"),
    ("int main(void) { int a[2] = {1, 2}; }", "fits"),
    ("int main(void) { int a[] = {1, 2, 3}; }", "fits"),
];

/// Lengths of arrays.
static LENGTHS: [(&str, &str); 25] = [
    ("int main(void) { int a[]; }", "6 at 1:22"),
    ("int main(void) { int a[] = {1}; }", "fits"),
    ("int main(void) { int a[] = 1; }", "3 at 1:22"),
    ("int main(void) { int x; int a[x]; }", "6 at 1:29"),
    ("int main(void) { int a[1 + 1]; }", "fits"),
    ("int main(void) { int a[1 / 0]; }", "6 at 1:22"),
    ("int main(void) { int a[0]; }", "6 at 1:22"),
    ("int main(void) { int a[1]; }", "fits"),
    ("int main(void) { int a[256]; }", "fits"),
    ("int main(void) { int a[257]; }", "6 at 1:22"),
    ("int main(void) { int a[-1]; }", "6 at 1:22"),
    ("int main(void) { int a[-1 + 2]; }", "fits"),
    ("int main(void) { int a[4294967295u]; }", "6 at 1:22"),
    ("int main(void) { int a[(char) 257]; }", "fits"),
    (
        "int f(void) { return 1; } int main(void) { int a[f()]; }",
        "6 at 1:48",
    ),
    ("int main(int a[]) { return a[0]; }", "6 at 1:14"),
    ("int main(int a[2]) { return a[0]; }", "fits"),
    ("int main(int a[]);", "6 at 1:14"),
    ("int main(int [0]);", "6 at 1:10"),
    (
        "int f(int a[0]) { return a[0]; } int main(void) { return 0; }",
        "fits",
    ),
    (
        "int f(int a[x]) { return a[0]; } int main(void) { return 0; }",
        "fits",
    ),
    ("int main(void) { int a[0] = {1, 2}; }", "6 at 1:22"),
    ("int main(void) { int a[1 ? 2 : 1 / 0]; }", "fits"),
    ("int main(void) { int a[1 || 1 / 0]; }", "fits"),
    ("int main(void) { int a[0 || 1 / 0]; }", "6 at 1:22"),
];

/// `break` and `continue`.
static JUMPS: [(&str, &str); 17] = [
    ("int main(void) { break; }", "7 at 1:18"),
    ("int main(void) { while (1) break; }", "fits"),
    ("int main(void) { continue; }", "7 at 1:18"),
    ("int main(void) { if (1) { continue; } }", "7 at 1:27"),
    (
        "int main(void) { do { if (1) continue; else break; } while (0); }",
        "fits",
    ),
    ("int main(void) { for (;;) { { break; } } }", "fits"),
    ("int main(void) { while (1) { } break; }", "7 at 1:32"),
    ("int main(void) { for (;;) ; continue; }", "7 at 1:29"),
    ("int main(int x) { switch (x) { case 1: break; } }", "fits"),
    (
        "int main(int x) { switch (x) { case 1: continue; } }",
        "7 at 1:40",
    ),
    (
        "int main(int x) { switch (x) { default: while (x) { if (x) break; else continue; } } }",
        "fits",
    ),
    (
        "int main(int x) { while (x) { switch (x) { case 1: continue; default: break; } } }",
        "fits",
    ),
    (
        "int main(int x) { switch (x) { case 1: while (x) ; break; } }",
        "fits",
    ),
    (
        "int main(int x) { switch (x) { case 1: while (x) ; continue; } }",
        "7 at 1:52",
    ),
    (
        "int main(int x) { switch (x) { case 1: ; } break; }",
        "7 at 1:44",
    ),
    (
        "int main(int x) { for (;;) { switch (x) { default: ; } continue; } }",
        "fits",
    ),
    (
        "int main(int x) { switch (x) { case 1: { switch (x) { default: continue; } } } }",
        "7 at 1:64",
    ),
];

/// Labels of a `switch`, and its controlling expression.
static LABELS: [(&str, &str); 21] = [
    (
        "int main(int x) { switch (x) { case 1: ; case 2: ; default: ; } }",
        "fits",
    ),
    (
        "int main(int x) { switch (x) { case 1: ; case 1: ; } }",
        "2 at 1:47",
    ),
    (
        "int main(int x) { switch (x) { case 1: case 2: ; case 1 + 1: ; } }",
        "2 at 1:55",
    ),
    (
        "int main(int x) { switch (x) { case 3: ; default: ; case -(-3): ; } }",
        "2 at 1:58",
    ),
    (
        "int main(int x) { switch (x) { case 1: ; case 1: ; case 1: ; } }",
        "2 at 1:47",
    ),
    (
        "int main(int x) { switch (x) { default: ; case 1: ; default: ; } }",
        "2 at 1:53",
    ),
    ("int main(int x) { switch (x) { case x: ; } }", "3 at 1:37"),
    (
        "int main(int x) { switch (x) { case 1: ; case 1 + x: ; } }",
        "3 at 1:47",
    ),
    (
        "int f(void) { return 1; } int main(int x) { switch (x) { case f(): ; } }",
        "3 at 1:63",
    ),
    (
        "int main(int x) { switch (x) { case 1 / 0: ; } }",
        "3 at 1:37",
    ),
    ("int main(int x) { switch (x) { case y: ; } }", "1 at 1:37"),
    (
        "int main(int x) { switch (x) { case 1 ? 2 : 3: ; case 3: ; } }",
        "fits",
    ),
    (
        "int main(unsigned u) { switch (u) { case -1: ; case 4294967295: ; } }",
        "2 at 1:53",
    ),
    (
        "int main(int x) { switch (x) { case -1: ; case 4294967295: ; } }",
        "2 at 1:48",
    ),
    (
        "int main(char x) { switch (x) { case 1: ; case 257: ; } }",
        "fits",
    ),
    (
        "int main(int x) { switch (x) { case 1: switch (x) { case 1: ; default: ; } default: ; } }",
        "fits",
    ),
    (
        "int main(int x) { switch (x) { case 1: while (x) { switch (x) { case 2: ; } } case 1: ; } }",
        "2 at 1:84",
    ),
    (
        "int main(int x) { switch (x) { case 1: ; } switch (x) { case 1: ; } }",
        "fits",
    ),
    (
        "int main(int a[2]) { switch (a) { case 1: ; } }",
        "3 at 1:30",
    ),
    (
        "void f(void) { } int main(void) { switch (f()) { case 1: ; } }",
        "3 at 1:43",
    ),
    (
        "int main(int x) { switch (x) { case 1: { int y; y = 1; } case 2: y = 2; } }",
        "1 at 1:66",
    ),
];

/// Tags of enumerations, which have scopes of their own.
static TAGS: [(&str, &str); 27] = [
    ("int main(void) { enum E x; }", "1 at 1:23"),
    ("enum E x; int main(void) { }", "1 at 1:6"),
    ("enum E { A }; int main(void) { enum E x; x = A; }", "fits"),
    ("int main(void) { enum E x; enum E { A }; }", "1 at 1:23"),
    (
        "int main(void) { { enum E { A }; } enum E x; }",
        "1 at 1:41",
    ),
    (
        "int f(enum E a) { return a; } int main(void) { return 0; }",
        "1 at 1:12",
    ),
    (
        "int f(int, enum E); int main(void) { return 0; }",
        "1 at 1:17",
    ),
    (
        "enum E { A }; int f(enum E a) { return a; } int main(void) { return f(A); }",
        "fits",
    ),
    ("int main(void) { int x; x = (enum E) 1; }", "1 at 1:35"),
    (
        "enum E { A }; int main(void) { int x; x = (enum E) 1; }",
        "fits",
    ),
    (
        "int main(void) { for (enum E i = 0; i < 1; i++) ; }",
        "1 at 1:28",
    ),
    (
        "enum E { A }; int main(void) { for (enum E i = A; i < 1; i++) ; }",
        "fits",
    ),
    (
        "enum E f(void) { return 0; } int main(void) { return 0; }",
        "1 at 1:6",
    ),
    (
        "enum E { A }; enum E f(void) { return A; } int main(void) { return f(); }",
        "fits",
    ),
    (
        "enum E { A = (enum E) 3 }; int main(void) { return A; }",
        "fits",
    ),
    (
        "enum E { A = (enum F) 3 }; int main(void) { return A; }",
        "1 at 1:20",
    ),
    (
        "enum E { A }; enum E { B }; int main(void) { }",
        "2 at 1:20",
    ),
    (
        "int main(void) { enum E { A }; enum E { B }; }",
        "2 at 1:37",
    ),
    (
        "enum E { A }; int main(void) { enum E { B }; enum E x; x = B; }",
        "fits",
    ),
    ("enum E { A } E; int main(void) { E = A; }", "fits"),
    ("int main(void) { int E; enum E { A } x; E = x; }", "fits"),
    ("enum E { E }; int main(void) { return E; }", "fits"),
    ("enum E { A }; int main(void) { E = 1; }", "1 at 1:32"),
    ("int E; int main(void) { enum E x; }", "1 at 1:30"),
    (
        "int main(void) { enum { A } x; enum { B } y; x = B; y = A; }",
        "fits",
    ),
    (
        "enum E { A }; enum E f(void); int f(void) { return A; } enum E main(void) { return f(); }",
        "fits",
    ),
    (
        "enum E { A }; int f(int a[]) { return a[0]; } int main(void) { enum E x[2]; return f(x); }",
        "fits",
    ),
];

/// Enumeration constants among the other names, and where a variable is wanted.
static CONSTANTS: [(&str, &str); 26] = [
    ("int main(void) { int A; enum { A }; }", "2 at 1:32"),
    ("int main(void) { enum { A }; int A; }", "2 at 1:34"),
    ("int main(void) { enum { A, A }; }", "2 at 1:28"),
    ("enum { A }; enum { A }; int main(void) { }", "2 at 1:20"),
    ("int A; enum { A }; int main(void) { }", "2 at 1:15"),
    (
        "int f(int A) { enum { A }; return 0; } int main(void) { }",
        "2 at 1:23",
    ),
    ("int f(void); enum { f }; int main(void) { }", "2 at 1:21"),
    ("enum { f }; int f(void); int main(void) { }", "2 at 1:17"),
    (
        "int main(void) { enum { f }; return f; } int f(void) { return 1; }",
        "fits",
    ),
    ("int A[2]; int main(void) { enum { A }; return A; }", "fits"),
    ("int A; int main(void) { enum { A }; A = 1; }", "3 at 1:37"),
    ("enum { A }; int main(void) { int A; A = 1; }", "fits"),
    (
        "enum { A }; int main(void) { { int A[2]; A[0] = 1; } return A; }",
        "fits",
    ),
    ("enum { A }; int main(int A) { A = 1; }", "fits"),
    ("int main(void) { { enum { A }; } return A; }", "1 at 1:41"),
    ("enum { A }; int main(void) { A(); }", "3 at 1:30"),
    ("enum { A }; int main(void) { return A(); }", "3 at 1:37"),
    ("enum { A }; int main(void) { A = 1; }", "3 at 1:30"),
    ("enum { A }; int main(void) { A += 1; }", "3 at 1:30"),
    ("enum { A }; int main(void) { A++; }", "3 at 1:30"),
    ("enum { A }; int main(void) { --A; }", "3 at 1:32"),
    ("enum { A }; int main(void) { return A[0]; }", "3 at 1:37"),
    ("enum { A }; int main(void) { A[0] = 1; }", "3 at 1:30"),
    (
        "enum { A }; int f(int a[]) { return a[0]; } int main(void) { return f(A); }",
        "3 at 1:71",
    ),
    (
        "enum { A }; int f(int a[]) { return a[0]; } int main(void) { return f((A)); }",
        "3 at 1:71",
    ),
    (
        "enum { A }; int f(int a) { return a; } int main(void) { return f(A) + (A); }",
        "fits",
    ),
];

/// Values of enumeration constants.
static VALUES: [(&str, &str); 26] = [
    (
        "enum { A = 3 }; int main(void) { int x[A] = {1, 2, 3}; }",
        "fits",
    ),
    (
        "enum { A = 3 }; int main(void) { int x[A] = {1, 2, 3, 4}; }",
        "4 at 1:38",
    ),
    ("enum { A }; int main(void) { int x[A]; }", "6 at 1:34"),
    (
        "enum { A = 3 }; int x = A + 1; int main(void) { return x; }",
        "fits",
    ),
    (
        "enum { A, B }; int main(int x) { switch (x) { case A: ; case B: ; } }",
        "fits",
    ),
    (
        "enum { A, B }; int main(int x) { switch (x) { case A: ; case 0: ; } }",
        "2 at 1:62",
    ),
    (
        "enum { A = 1, B = A + 1, C = A + B }; int main(int x) { switch (x) { case C: ; case 3: ; } }",
        "2 at 1:85",
    ),
    (
        "enum { A = 7 }; int main(int x) { enum { A = A }; switch (x) { case 7: ; case A: ; } }",
        "2 at 1:79",
    ),
    ("enum { A = A }; int main(void) { }", "1 at 1:12"),
    ("int A; int main(void) { enum { A = A }; }", "3 at 1:36"),
    ("int x; enum { A = x }; int main(void) { }", "3 at 1:19"),
    ("int x; enum { A = 1 + x }; int main(void) { }", "3 at 1:19"),
    (
        "int f(void) { return 1; } enum { A = f() }; int main(void) { }",
        "3 at 1:38",
    ),
    ("enum { A = 1 / 0 }; int main(void) { }", "3 at 1:12"),
    (
        "enum { A = 1 || 1 / 0 }; int main(void) { return A; }",
        "fits",
    ),
    (
        "enum { A, B, C = 5, D }; int main(int x) { switch (x) { case B: ; case D: ; case 0: ; case 5: ; case 6: ; } }",
        "2 at 1:102",
    ),
    (
        "enum { A, B, C = 5, D }; int main(int x) { switch (x) { case B: ; case D: ; case 0: ; case 5: ; case 1: ; } }",
        "2 at 1:102",
    ),
    (
        "enum { A = 2147483647, B }; int main(int x) { switch (x) { case B: ; case -2147483647 - 1: ; } }",
        "2 at 1:75",
    ),
    (
        "enum { A = 2147483647, B }; int main(int x) { switch (x) { case B: ; case 0: ; case 2147483647: ; } }",
        "fits",
    ),
    (
        "enum { A = 4294967295u }; int main(int x) { switch (x) { case A: ; case -1: ; } }",
        "2 at 1:73",
    ),
    (
        "#define M enum { A = 5, B = 1 / 0 }; switch (x) { case B: ; case 6: ; }\nint main(int x) { M }",
        "2 at 2:19",
    ),
    (
        "#define M enum { A = 5, B = 1 / 0, C }; switch (x) { case C: ; case 7: ; }\nint main(int x) { M }",
        "2 at 2:19",
    ),
    (
        "#define M enum { A = 5, B = x }; switch (x) { case B: ; case 6: ; }\nint main(int x) { M }",
        "2 at 2:19",
    ),
    (
        "#define M enum { A = 5, B = 1 / 0 }; switch (x) { case B: ; case 5: ; case 0: ; }\nint main(int x) { M }",
        "3 at 2:19",
    ),
    (
        "#define M enum { B = 1 / 0 }; switch (x) { case B: ; case 0: ; }\nint main(int x) { M }",
        "2 at 2:19",
    ),
    ("int main(void) { enum { A = x }; int A; }", "1 at 1:29"),
];

/// Calls in indices.
static CALLS: [(&str, &str); 5] = [
    (
        "int f(void) { return 0; } int main(void) { int a[2]; a[f()] += 1; }",
        "8 at 1:54",
    ),
    (
        "int f(void) { return 0; } int main(void) { int a[2]; a[f()] = 1; a[0] += f(); }",
        "fits",
    ),
    (
        "int f(void) { return 0; } int main(void) { int a[2]; a[1 - f()]++; }",
        "8 at 1:54",
    ),
    (
        "int f(void) { return 0; } int main(void) { int a[2]; --a[f()]; }",
        "8 at 1:56",
    ),
    (
        "int main(void) { int a[2]; a[a[0]] -= 1; ++a[1]; a[0]--; }",
        "fits",
    ),
];

/// Two faults in a text: the leftmost one is answered, at one position the one of the smaller number.
static FIRST: [(&str, &str); 30] = [
    (
        "int f(void) { return x; } int f(void) { return 0; } int main(void) { return 0; }",
        "1 at 1:22",
    ),
    (
        "int main(void) { return f(x, 1); } int f(int a) { return a; }",
        "4 at 1:25",
    ),
    (
        "int f(int a) { return a; } int main(void) { return f(x, 1); }",
        "4 at 1:52",
    ),
    (
        "int f(int a, int b) { return a; } int main(void) { return f(x, y); }",
        "1 at 1:61",
    ),
    (
        "int f(int a[], int b) { return b; } int main(void) { return f(x, y); }",
        "1 at 1:63",
    ),
    (
        "int f(int a[], int b) { return b; } int main(void) { int x; return f(x, y); }",
        "3 at 1:70",
    ),
    ("int main(void) { int a[3]; a = x; break; }", "3 at 1:28"),
    ("int main(void) { x = y; }", "1 at 1:18"),
    ("int main(void) { int a[2]; a[x] = y; }", "1 at 1:30"),
    ("int main(void) { int x; int x = y; }", "2 at 1:29"),
    ("int main(void) { void x = y; }", "3 at 1:23"),
    ("int main(void) { for (i = 0; j; k++) ; }", "1 at 1:23"),
    (
        "int main(void) { int i; for (i = 0; j; k++) l = 1; }",
        "1 at 1:37",
    ),
    (
        "int main(void) { int i; for (i = 0; i; k++) l = 1; }",
        "1 at 1:40",
    ),
    ("int main(void) { do x = 1; while (y); }", "1 at 1:21"),
    (
        "int f(void) { return f(1, x); } int main(void) { return 0; }",
        "4 at 1:22",
    ),
    ("int main(int x) { switch (y) { case x: ; } }", "1 at 1:27"),
    (
        "int main(int x) { switch (x) { case x: y = 1; } }",
        "3 at 1:37",
    ),
    (
        "int main(int x) { switch (x) { case 1: y = 1; case 1: ; } }",
        "1 at 1:40",
    ),
    (
        "int main(int x) { switch (x) { default: ; default: continue; } }",
        "2 at 1:43",
    ),
    ("#define A x = y\nint main(void) { A; }", "1 at 2:18"),
    (
        "#define A int x, x; break\nint main(void) { A; }",
        "2 at 2:18",
    ),
    ("#define A break; x = 1\nint main(void) { A; }", "1 at 2:18"),
    ("void x[0]; int main(void) { return 0; }", "3 at 1:6"),
    ("int x; void x; int main(void) { return 0; }", "2 at 1:13"),
    ("", "5"),
    ("int x;", "5"),
    ("int main(void);", "5"),
    ("int main;", "5"),
    ("int f(void) { return x; }", "1 at 1:22"),
];

/// Compares the answer to each text with the one that is expected.
fn expect_answers(rt: &impl Abort, alloc: Global, rows: &[(&str, &str)]) {
    assert_eq!(rt; first_difference(rt, alloc, rows), None);
}

#[test]
fn faults_are_answered_at_their_places(rt: HostRuntime) {
    let alloc = rt.alloc();
    // Names are looked up in their scopes, and declared once there.
    expect_answers(&rt, alloc, NAMES.as_slice());
    expect_answers(&rt, alloc, TWICE.as_slice());
    // Names and types fit their uses; arguments and values are counted.
    expect_answers(&rt, alloc, KINDS.as_slice());
    expect_answers(&rt, alloc, COUNTS.as_slice());
    // Lengths are constants from 1 to 256.
    expect_answers(&rt, alloc, LENGTHS.as_slice());
    // `break` is in loops and `switch`es, `continue` in loops; a `switch` has constant labels, each once.
    expect_answers(&rt, alloc, JUMPS.as_slice());
    expect_answers(&rt, alloc, LABELS.as_slice());
    // Tags and constants of enumerations have their scopes, constants their values.
    expect_answers(&rt, alloc, TAGS.as_slice());
    expect_answers(&rt, alloc, CONSTANTS.as_slice());
    expect_answers(&rt, alloc, VALUES.as_slice());
    // An index that is used twice has no call.
    expect_answers(&rt, alloc, CALLS.as_slice());
    // The leftmost fault is answered.
    expect_answers(&rt, alloc, FIRST.as_slice());
}
