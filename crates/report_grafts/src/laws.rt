//! A law of pins, as the contract of a function with an empty body.
ghost use Rattle.report_grafts.specs.Pins.{PinsFixHeads};

/// A rota meets the pins of another one exactly where it has as many duties of each shift with a legal break list on each day.
pub fn pins_fix_heads()
    ensures { PinsFixHeads }
{}
