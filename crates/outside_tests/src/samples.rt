//! Samples.

use ba_samples::sample_text;
use std::panic::Expect;

#[test]
fn makes_samples(rt: HostRuntime) {
    let text = sample_text(rt.alloc(), 1).expect(&rt, "memory");
    let wanted = "int main(void) {
    int s = 0;
    s = s + 1;
    assert(s == 2);
    return 0;
}
";
    assert_eq!(rt; text.as_slice(), wanted.as_bytes());
}
