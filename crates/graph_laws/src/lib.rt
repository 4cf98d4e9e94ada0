// The laws of the Othello map's graph: what edges join, and that a forest of edges lets any one part's bit be set alone.
#![tactic(auto)]

ghost use Rattle.graph_laws.specs.Graphs.{GraphLaws};

// Carries the laws in its contract, and does nothing.
pub fn graph_laws()
    ensures { GraphLaws }
{}
