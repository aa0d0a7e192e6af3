//! Theorems about the language's definitions. Each is stated as the contract of a function with an empty body.
ghost use Rattle.std.specs.Prelude.{◌≡◌, ◌≢◌, ◌⊎◌, ℕ, List, map};
ghost use Rattle.std.specs.List.{AllPairs};
ghost use Rattle.arachne_lang.specs.declared.text_fault.TextFault.{TextFault};
ghost use Rattle.arachne_program.specs.Tree.{Source};
ghost use Rattle.arachne_program.specs.Meaning.{meaning_of};
ghost use Rattle.arachne_lang.specs.Spelling.{text_of};
ghost use Rattle.arachne_lang.specs.Text.{IsAccepted, HasFault, IsFirstFault};

/// No two threads of a program have the same name.
pub fn names_differ()
    ensures { (program : Source) → AllPairs (λ a b. a ≢ b) (map (λ line. line.name) (meaning_of program).threads) }
{}

/// Different programs have different texts.
pub fn texts_differ()
    ensures { (some : Source) → (other : Source) → text_of some ≡ text_of other → some ≡ other }
{}

/// The text of an accepted program has no error. (A program is accepted if its numbers are in range and it is nested at
/// most 64 levels deep.)
pub fn accepted_texts_have_no_fault()
    ensures { (program : Source) → (fault : TextFault) → IsAccepted program → ¬ HasFault (text_of program) fault }
{}

/// Each sequence of bytes either is the text of an accepted program, or has a first error.
pub fn other_texts_have_a_first_fault()
    ensures { (bytes : List ℕ) → ((program : Source) × IsAccepted program × (text_of program ≡ bytes)) ⊎ ((first : TextFault) × IsFirstFault bytes first) }
{}
