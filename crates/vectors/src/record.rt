// The controller's record as text, for the manuals' start sequences.
use controller::{Counter, Record};
use std::fmt;

// The whole record but for the register, the busy time and the half, of which the manuals do not speak.
pub fn see_record<W: fmt::Write>(seen: &mut W, rec: Record) -> fmt::Result {
    let width = if rec.wide { 8 } else { 4 };
    let n = u8::from(rec.function.n);
    let f = u8::from(rec.function.f);
    let d = u8::from(rec.control.d);
    let c = u8::from(rec.control.c);
    let b = u8::from(rec.control.b);
    let id = u8::from(rec.entry.id);
    let s = u8::from(rec.entry.s);
    let shift = rec.shift;
    write!(
        seen,
        "width {width} N={n} F={f} D={d} C={c} B={b} I/D={id} S={s} shift {shift:02}"
    )?;
    match rec.counter {
        Counter::Display(cell) => write!(seen, " display cell {cell:02}"),
        Counter::Pattern(cell) => write!(seen, " pattern cell {cell:02}"),
    }
}
