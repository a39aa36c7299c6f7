// What is printed. What cannot be written is passed over.
use answer::Answer;

pub(crate) fn text(rt: &impl Print, t: &str) {
    let _ = rt.print(t);
}

pub(crate) fn argument(rt: &impl Print, n: u8) {
    let _ = print!(rt; " {n}");
}

pub(crate) fn answer(rt: &impl Print, a: Answer) {
    let _ = print!(rt; " {} {}", a.number, a.value);
}

// The line of a call with one argument.
pub(crate) fn line(rt: &impl Print, name: &str, n: u8, a: Answer) {
    let _ = print!(rt; "{name} {n} = {} {}\n", a.number, a.value);
}

// A writer's answer, what stands at the front of its room, and the line's end.
pub(crate) fn written(rt: &impl Print, a: Answer, out: &[u8]) {
    let _ = print!(rt; " = {} {} [", a.number, a.value);
    let _ = rt.write_all(answer::front(out, a.value as usize));
    let _ = rt.print("]\n");
}
