// Notices are written here: event by event, into memory that the caller lends, or only measured.
#![tactic(auto)]

pub mod pen;
pub mod printer;
pub mod ruler;
pub mod sink;

ghost use Rattle.shared_pen.specs.Pens.{NoticeInEvents};
ghost use Rattle.shared_pen.specs.Laws.{InkJoined, InkFits, InkOver, InkFull, InkEvents, InkNotice, InkFinished, RuleExact, RuleBytes, RuleText, RuleEvent, RuleJoined, RuleEvents, RuleNotice, RuleFinished, PrintEvents, PrintNotice};

use sink::Sink;

// The text of a notice is its head, the texts of its steps' events, and its end.
pub fn notice_in_events()
    ensures { NoticeInEvents }
{}

// What stands in the memory after a pen wrote a text, and after head, events and end of a notice.
pub fn pen_laws()
    ensures joined { InkJoined }
    ensures fits { InkFits }
    ensures over { InkOver }
    ensures full { InkFull }
    ensures events { InkEvents }
    ensures notice { InkNotice }
    ensures finished { InkFinished }
{}

// What a ruler shows after them.
pub fn ruler_laws()
    ensures exact { RuleExact }
    ensures bytes { RuleBytes }
    ensures text { RuleText }
    ensures event { RuleEvent }
    ensures joined { RuleJoined }
    ensures events { RuleEvents }
    ensures notice { RuleNotice }
    ensures finished { RuleFinished }
{}

// What any sink is after them, where a printer puts them there.
pub fn printer_laws<K: Sink>()
    ensures events { PrintEvents K.each }
    ensures notice { PrintNotice K.each }
{}
