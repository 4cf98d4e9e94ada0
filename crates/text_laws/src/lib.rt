// The laws of the texts: what is read of a notice is what was written, and a refused text is refused at its first wrong token.
// Each function carries theorems in its contract, and does nothing.
#![tactic(auto)]

ghost use Rattle.shared.specs.Notice.{Kind};
ghost use Rattle.text_laws.specs.Faults.{FaultsFirst};
ghost use Rattle.text_laws.specs.Texts.{FormLaws, Faithful};

// Each way to make a form keeps reading and writing inverse.
pub fn form_laws<X, Y>()
    ensures { FormLaws X Y }
{}

// The laws of notices, for every setting kind.
pub fn text_laws()
    ensures faithful { (kind : Kind) → Faithful kind }
    ensures first { (kind : Kind) → FaultsFirst kind }
{}
