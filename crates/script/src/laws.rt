// Laws of the definitions, for callers: the clause is the theorem. Nothing that runs calls these functions.
ghost use Rattle.script.specs.Script.{LineLaws};

/// A script's lines are asked one after another: what some ask, and then others, is what all of them ask, and what all
/// ask is parted at each of them. A line alone asks what it asks, and one that does, or asks nothing, isn't bad.
pub fn law_lines_are_asked_in_turn()
    ensures { LineLaws }
{}
