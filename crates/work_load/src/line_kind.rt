//! What the lines of a generated script do.

ghost use Rattle.std.specs.Prelude.{◌≡◌};
ghost use Rattle.work_load.specs.Lines.{line_kind_at};

/// What a line of a script does.
#[derive(Clone, Copy, Debug, PartialEq, Eq)]
pub enum LineKind {
    /// It sends what is due.
    Pump,
    /// It asks for event information.
    Request,
    /// Time goes on.
    Tick,
    /// An object gets a value.
    Set,
}

impl LineKind {
    /// What the line with a number does.
    #[tactic(auto, unfolding(crate::specs::Lines::line_kind_at))]
    pub fn at(number: u64) -> LineKind
        ensures kind { result ≡ line_kind_at number }
    {
        match number % 8 {
            3 => LineKind::Pump,
            5 => LineKind::Request,
            7 => LineKind::Tick,
            _ => LineKind::Set,
        }
    }
}
