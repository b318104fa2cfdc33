// Idriss 2014: the tables and equations, what is computed, what is promised, and laws. There is no code.
#![tactic(auto)]

// A row of a table by unsigned parts: α1, −α1, α2, −α2, α3, −α3, β1, −β2, −ξ, −γ, φ; of a number and its negative, the
// one below zero stands as 0.
#[derive(Clone, Copy)]
pub struct Row(
    pub u32,
    pub u32,
    pub u32,
    pub u32,
    pub u32,
    pub u32,
    pub u32,
    pub u32,
    pub u32,
    pub u32,
    pub u32,
);
