//! What holds of the journal's text.
ghost use Rattle.std.specs.Prelude.{◌≡◌, ◌+◌, ◌++◌, ℕ, true, List, length};
ghost use Rattle.md_machine.specs.declared.Event.{Event};
ghost use Rattle.md_machine.specs.declared.Reply.{Reply};
ghost use Rattle.md_machine.specs.States.{State};
ghost use Rattle.md_machine.specs.Steps.{step};
ghost use Rattle.md_render.specs.Texts.{has_text, journal_text};

/// The journal has a text for every event with the machine's reply to it.
pub fn steps_have_texts()
    ensures { (s : State) (e : Event) → has_text e (step s e).reply ≡ true }
{}

/// The text of a journal made of two is the first's text, then the second's with its places.
pub fn journals_join()
    ensures { (place : ℕ) (xs ys : List (Event × Reply)) → journal_text place (xs ++ ys) ≡ journal_text place xs ++ journal_text (place + length xs) ys }
{}
