//! Laws of payloads and of declarations.

ghost use Rattle.std.specs.Prelude.{◌≡◌, ℕ, List, [], IsTrue, Ok, Some};
ghost use Rattle.std.specs.List.{slice_split};
ghost use Rattle.tr_lines.specs.Lines.{is_feed};
ghost use Rattle.tr_record.specs.Whole.{AreBytes};
ghost use Rattle.tr_events.specs.Declarations.{AreDeclared};
ghost use Rattle.tr_events.specs.Events.{Declarations, Event, Value, is_apart, nothing, values_of};
ghost use Rattle.tr_events.specs.Lines.{after_lines};
ghost use Rattle.tr_events.specs.Packing.{AreFor, pack};
ghost use Rattle.tr_events.specs.Words.{declarations_text};

/// The values that were packed are those of the payload. Does nothing.
pub fn packed_values()
    ensures { (e : Event) (values : List Value) → IsTrue (is_apart e.fields) → AreFor e.fields values
        → values_of e (pack e.fields values) ≡ Some values }
{}

/// The values of a payload pack to the payload. Does nothing.
pub fn values_packed()
    ensures { (e : Event) (payload : List ℕ) (values : List Value) → AreBytes payload
        → values_of e payload ≡ Some values → pack e.fields values ≡ payload }
{}

/// What is written of declared variables and events, a line for each, declares them. Does nothing.
pub fn declared_again()
    ensures { (d : Declarations) → AreDeclared d
        → after_lines 1 nothing (slice_split is_feed (declarations_text d)) ≡ Ok d }
{}
