//! The law that the word of each ledger is the sum of what all shares have added to it. The law is the contract of a
//! function with an empty body.
ghost use Rattle.std.specs.Prelude.{◌≡◌, ◌≢◌, ◌<◌, ℕ, List, [], length, slice_index};
ghost use mathlib.Core.Option.{some};
ghost use lib.ListN.{get_elem?};
ghost use Rattle.atomic_table.specs.Table.{opening};
ghost use Rattle.arachne_weights.specs.Tokens.{held};
ghost use Rattle.arachne_ledger.specs.declared.share.Known.{Known};
ghost use Rattle.arachne_ledger.specs.Balance.{Board, IsBalanced, word_of, opening_share, after_add, after_read, after_split, after_join};

/// Each ledger's word is the sum, modulo 2^64, of what all shares (threads' rights to add) have added to the ledger.
///
/// The law holds for new ledgers, and after each atomic operation of a share.
pub fn words_stay_the_sums()
    ensures at_first { (count : ℕ) (words : List ℕ) → length words ≡ word_of count → ((i : ℕ) → slice_index words i ≡ 0)
        → IsBalanced count (opening words [] (opening_share count)) }
    ensures after_an_add { (count : ℕ) (board : Board) → IsBalanced count board
        → (place weight : ℕ) (known : Known) → get_elem? board.views place ≡ some (held weight known)
        → (ledger amount : ℕ) → ledger < count → length known.sums ≡ count
        → IsBalanced count (after_add board place weight known ledger amount) }
    ensures after_a_read { (count : ℕ) (board : Board) → IsBalanced count board
        → (place weight : ℕ) (known : Known) → get_elem? board.views place ≡ some (held weight known)
        → (ledger : ℕ) → IsBalanced count (after_read board place weight known ledger) }
    ensures after_a_split { (count : ℕ) (board : Board) → IsBalanced count board
        → (place weight : ℕ) (known : Known) → get_elem? board.views place ≡ some (held weight known)
        → IsBalanced count (after_split board place weight known) }
    ensures after_a_join { (count : ℕ) (board : Board) → IsBalanced count board
        → (place weight : ℕ) (known : Known) → get_elem? board.views place ≡ some (held weight known)
        → (other added : ℕ) (others : Known) → other ≢ place → get_elem? board.views other ≡ some (held added others)
        → IsBalanced count (after_join board place weight known other added others) }
{}
