//! What a stop may leave of two parts, and when their count of faults is spent.

ghost use Rattle.sm_span.specs.Parts.{PartsAllow, SumIsSpent};

/// Two parts as one device allow an image exactly where it is one that the first part allows, followed by one that the second
/// allows.
pub fn law_images()
    ensures { PartsAllow }
{}

/// A span is spent where one of its parts is.
pub fn law_spent()
    ensures { SumIsSpent }
{}
