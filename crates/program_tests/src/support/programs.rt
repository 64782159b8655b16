//! Programs, inputs and choices of tests, from their texts.

use ba_choices::Choice;
use ba_inputs::read_input;
use ba_tree::run::Input;
use ba_tree::tree::Program;
use std::alloc::Global;
use std::panic::Expect;
use std::process::Abort;

/// The program that a text spells.
pub fn program_of(rt: &impl Abort, alloc: Global, text: &str) -> Program {
    test_programs::program_of(alloc, text).expect(rt, "a program")
}

/// The input of a program that a text has.
pub fn input_of(rt: &impl Abort, alloc: Global, program: &Program, text: &str) -> Input {
    assert!(rt; text.len() <= 65_536);
    read_input(alloc, program, text.as_bytes()).expect(rt, "an input")
}

/// The choices that words spell.
pub fn choices_of(rt: &impl Abort, alloc: Global, words: &str) -> Vec<Choice> {
    test_programs::choices_of(alloc, words).expect(rt, "choices")
}

/// Five lines: a variable that gets the input, and an assert.
pub const FIVE_LINES: &str = "int main(int a) {
    int x;
    x = a;
    assert(x == 2);
}
";

/// The same with a `short`, which is compared with the input.
pub const SHORT: &str = "int main(int a) {
    short s;
    s = a;
    assert(s == a);
}
";

/// A sum and an element, each of which two asserts compute.
pub const TWICE: &str = "int main(int x) {
    int y, a[2];
    y = x;
    a[x] = 5;
    assert(y + 1 == 2);
    assert(y + 1 < a[1]);
    assert(a[1] == 5);
}
";
