ghost use Rattle.std.specs.Prelude.{ℕ, List};
ghost use Rattle.gv_cmd.specs.Effect.{Operations};

/// What a space of memory and general registers stands for: a state of plain data, and the meaning
/// of its operations over that state. The effect of a command is written over it.
pub trait SpaceMeaning {
    /// What the space stands for: plain data.
    ghost State: { Type 0 };

    ghost state: { Self → State };

    /// The names of the loans that the space holds. A caller that lent them needs that they stay;
    /// a space that owns all that it holds has none.
    ghost loans: { Self → List ℕ };

    /// What each operation answers and leaves.
    ghost operations: { Operations State };
}
