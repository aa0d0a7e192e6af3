//! What the contracts of the core policy imply. Each law is the contract of an empty function.

ghost use Rattle.std.specs.Prelude.{◌≡◌, ℕ, ◌+◌, ◌*◌, ◌<◌, List, [], ◌∷◌, ◌++◌, length, reverse, take, slice_index_or};
ghost use Rattle.arachne_policy.specs.declared.samples.Sample.{Sample};
ghost use Rattle.arachne_policy.specs.declared.samples.Advice.{Advice};
ghost use Rattle.arachne_policy.specs.Sample.{utilisation_of};
ghost use Rattle.arachne_policy.specs.declared.limits.TheConstants.{MAX_CORES, MAX_COUNT};
ghost use Rattle.arachne_policy.specs.Sample.{most_counted};
ghost use Rattle.arachne_policy.specs.State.{most_cores, State, after, StandsFor, HasJudged};
ghost use Rattle.arachne_policy.specs.Advice.{Settings, threshold, advice, advices, NoneAdded, RecordStands};

/// The policy releases one of `cores + 1` cores if the number of busy cores falls well below a threshold: that number
/// at the last sample of `cores` cores whose advice was `Add`. If there was no such sample, the threshold is `cores`.
pub fn threshold_is_of_last_add()
    ensures recorded { (settings : Settings) (past : List Sample) (added : Sample)
        → RecordStands settings past added
        → threshold settings past (added.cores + 1) ≡ utilisation_of added }
    ensures unrecorded { (settings : Settings) (past : List Sample) (cores : ℕ)
        → NoneAdded settings past [] cores
        → threshold settings past (cores + 1) ≡ 1000 * cores }
{}

/// Each sample in a list gets one advice, which depends only on the settings, that sample, and the samples before it.
///
/// If a sample is appended to a list, the advices for the samples before it stay the same. The new advice follows from
/// the new sample and the thresholds (loads below which a core is released) as those samples left them.
pub fn advices_are_in_turn()
    ensures each_once { (settings : Settings) (samples : List Sample)
        → length (advices settings samples) ≡ length samples }
    ensures after_those_before { (settings : Settings) (samples : List Sample) (k : ℕ) (d : Sample) (a : Advice)
        → k < length samples
        → slice_index_or (advices settings samples) k a
        ≡ advice settings (reverse (take k samples)) (slice_index_or samples k d) }
    ensures one_more { (settings : Settings) (samples : List Sample) (answers : List Advice)
        (old new : State) (s : Sample) (a : Advice)
        → HasJudged settings samples answers old
        → new ≡ after old s a
        → (a ≡ advice old.settings (reverse samples) s) × StandsFor new (s ∷ reverse samples)
        → HasJudged settings (samples ++ s ∷ []) (answers ++ a ∷ []) new }
{}

/// The greatest number of cores, and the greatest count in a sample, are the same in the code and in the contracts.
pub fn limits_are_the_definitions()
    ensures cores { MAX_CORES ≡ most_cores }
    ensures counts { MAX_COUNT ≡ most_counted }
{}
