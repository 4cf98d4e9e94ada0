// Laws of chains (cuckoo paths) and of the plan of an enter, over the rules' definitions. The function carries theorems in its
// contract and does nothing.
#![tactic(auto)]

ghost use Rattle.chain_laws.specs.Plans.{PlanStands, PlanSpills, PlanPlays};

// An enter may be planned over slots and rows as they are before the call: its steps, its book afterwards and its overflow
// entries are those of the rules, which take one step after the other.
pub fn plan_laws()
    ensures steps { PlanStands }
    ensures entries { PlanSpills }
    ensures book { PlanPlays }
{}
