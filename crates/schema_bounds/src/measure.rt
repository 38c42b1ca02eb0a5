//! The two measures of a default, its depth and its nodes, and how sizes are counted by each.
ghost use Rattle.std.specs.Prelude.{◌≡◌, min};
ghost use Rattle.schema_bounds.specs.steps.Measures as measures;

/// What is counted of a default (own: E23).
#[derive(Clone, Copy)]
pub enum Measure {
    /// the composite depth, in levels
    Depth,
    /// the values in it, itself included, and the characters of texts
    Nodes,
}

impl Measure {
    /// Where counting stops: one more than E23 permits.
    pub fn most(self) -> usize
        ensures { result ≡ measures.most self }
    {
        match self {
            Measure::Depth => 33,
            Measure::Nodes => 513,
        }
    }

    /// The size of a value without parts.
    pub fn leaf(self) -> usize
        ensures { result ≡ measures.leaf self }
    {
        match self {
            Measure::Depth => 0,
            Measure::Nodes => 1,
        }
    }

    /// The size of parts beside each other, counted up to `top`.
    pub fn beside(self, top: usize, first: usize, second: usize) -> usize
        ensures { result ≡ min top (measures.beside self first second) }
    {
        match self {
            Measure::Depth => first.max(second).min(top),
            Measure::Nodes => first.saturating_add(second).min(top),
        }
    }
}
