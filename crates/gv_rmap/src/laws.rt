ghost use Rattle.gv_rmap.specs.Tree.{HeightIsLogarithmic};

/// The tree of a chain is low: so a look-up, a link and an unlink take a time that grows with the logarithm of
/// the chain's length. The function does nothing: its clause is the law.
pub fn trees_are_low()
    ensures { HeightIsLogarithmic }
{}
