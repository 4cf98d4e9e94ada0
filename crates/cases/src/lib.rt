// The worked examples of the rules, as one result over one list.
#![tactic(auto)]

ghost use Rattle.std.specs.Prelude.{◌≡◌, length};
ghost use Rattle.cases.specs.Examples.{Hold, examples};

// How many worked examples there are. Each has the value that it should have: the rules are computed, not assumed.
pub fn worked_examples() -> usize
    ensures count { result ≡ length examples }
    ensures hold { Hold examples }
{
    11
}
