//! Laws that hold at any time for all tokens (users' rights) of one shared object. Each law is the contract of a
//! function with an empty body.
ghost use Rattle.std.specs.Prelude.{◌≡◌, ◌≢◌, ◌≤◌, ℕ, List};
ghost use mathlib.Core.Option.{some};
ghost use lib.ListN.{get_elem?};
ghost use Rattle.arachne_weights.specs.declared.token.Token.{Token};
ghost use Rattle.arachne_weights.specs.Weight.{whole};
ghost use Rattle.arachne_weights.specs.Tokens.{IsReachable, spent, total_weight};

/// The weights of all tokens (users' rights) of one object add up to at most the whole weight, 2^127.
pub fn tokens_within_the_whole<K>()
    ensures { (nothing : K) (tokens : List (Token K)) → IsReachable nothing tokens → total_weight tokens ≤ whole }
{}

/// If one token (user's right) has the whole weight, each other token was joined into it, directly or through others.
pub fn whole_is_alone<K>()
    ensures { (nothing : K) (tokens : List (Token K)) → IsReachable nothing tokens
        → (i j : ℕ) (t u : Token K) → get_elem? tokens i ≡ some t → t.weight ≡ whole → j ≢ i → get_elem? tokens j ≡ some u
        → u ≡ spent nothing }
{}
