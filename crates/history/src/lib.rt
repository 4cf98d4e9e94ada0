// The history law and the laws that lead to it, over the rules' definitions. Each function carries a theorem in its contract and
// does nothing; the book's and the controller's calls will rest on the same definitions.
#![tactic(auto)]

ghost use Rattle.chain_laws.specs.Chains.{ChainLaw};
ghost use Rattle.history.specs.Law.{HistoryLaw};
ghost use Rattle.history.specs.Ledgers.{HoldingLaw, NoticesLaw};
ghost use Rattle.history.specs.Midway.{MidwayLaw};
ghost use Rattle.history.specs.Progress.{ProgressLaw};
ghost use Rattle.history.specs.Searches.{SeedLaw, FlipLaw};

// For every setting kind, every history of every book and every life of every controller: each call is answered as the rules
// have it, and two controllers find equal settings for a standing part exactly when its last writings are equal.
pub fn history_law()
    ensures { HistoryLaw }
{}

// A controller that is brought all notices of its book in order comes to the book's number.
pub fn progress_law()
    ensures { ProgressLaw }
{}

// Between two steps of a notice a controller still finds what it found before.
pub fn midway_law()
    ensures { MidwayLaw }
{}

// What the searches of an enter find: the least seed, the chain that comes first, and the places that are joined.
pub fn search_laws()
    ensures seed { SeedLaw }
    ensures chain { ChainLaw }
    ensures flips { FlipLaw }
{}

// A book holds and tells what its ledger says, and its notice n is a text of the notice's form under the number n.
pub fn ledger_laws()
    ensures holding { HoldingLaw }
    ensures notices { NoticesLaw }
{}
