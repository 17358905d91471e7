//! The laws of a revoker's steps.

ghost use Rattle.std.specs.Prelude.{◌≡◌, ◌≢◌, ◌==◌, ◌/◌, ◌+◌, ◌||◌, ◌&&◌, not, ◌<◌, ◌*◌, ◌-◌, ◌∷◌, ℕ, All, Bool, List, false, length, replicate, slice_index_or, slice_set, true};
ghost use Rattle.heap_model.specs.Blocks.{bytes_in};
ghost use Rattle.heap_model.specs.Sweep.{takes_tag};
ghost use Rattle.tag_memory.specs.Cells.{null_cell};
ghost use Rattle.tag_memory.specs.Extent.{page_granules};
ghost use Rattle.trace_text.specs.declared.trace.Command.{Command as TheCommand};
ghost use Rattle.trace_text.specs.declared.trace.Command.TheVariants.{End, LoadCap};
ghost use Rattle.heap_reply.specs.declared.reply.Reply.{Reply as TheReply};
ghost use Rattle.heap_reply.specs.declared.reply.Reply.TheVariants.{Swept};
ghost use Rattle.machine_steps.specs.Follow.{Follows};
ghost use Rattle.machine_steps.specs.Dirty.{HasPages, IsDirtied};
ghost use Rattle.machine_steps.specs.Safety.{AreInUseOrWaiting, FitsTypes, IsSafe, IsUnused};
ghost use Rattle.machine_steps.specs.Sound.{IsMachine};
ghost use Rattle.machine_steps.specs.State.{State};
ghost use Rattle.machine_steps.specs.Step.{Step, after_begin, after_end, begin_takes, end_takes};
ghost use Rattle.revoker_steps.specs.declared.command.RevokerCommand.{RevokerCommand as TheRevokerCommand};
ghost use Rattle.revoker_steps.specs.declared.command.RevokerCommand.TheVariants.{Paint, Release, UntagGranule, UntagRegister, Visit};
ghost use Rattle.revoker_steps.specs.declared.command.RevokerReply.{RevokerReply as TheRevokerReply};
ghost use Rattle.revoker_steps.specs.declared.command.RevokerReply.TheVariants.{Cleared, Done, Released};
ghost use Rattle.revoker_steps.specs.Barred.{AreSeen, IsBarred, IsBarredAt, LoadsDone, LoadsSeen, RunsBarred, after_start, page_at};
ghost use Rattle.revoker_steps.specs.Events.{CoverMemory, CoverRegisters, Event, Runs, cleared_by, cleared_in, is_at_one, register_untags, untags, visits};
ghost use Rattle.revoker_steps.specs.Events.Event.{Revoked};
ghost use Rattle.revoker_steps.specs.Revoker.{RevokerStep, after_paint, after_release, is_at, is_in_page};
ghost use Rattle.revoker_steps.specs.RevokerDirty.{revoker_dirty_after};
ghost use Rattle.revoker_steps.specs.Tracked.{AreClean, IsDueAt, RunsTracked, stores_at};

use cap_codec::derivation_law;
use heap_model::sound_heap_law;
use machine_steps::{any_placement_law, safe_reuse_law};

/// In each state a revoker's command has exactly one reply and leaves exactly one state; an untag touches one granule. From a safe state it leaves a safe one;
/// so does each list that mixes such commands with the program's, whatever the revoker does and, in the second form, wherever an
/// allocator places blocks; and after it a command hands out only what is unused (Filardo et al. 2020, Cornucopia).
pub fn revoker_law()
    ensures one { (old : State) (command : TheRevokerCommand) →
        (reply : TheRevokerReply) × (new : State) × RevokerStep old command reply new }
    ensures only { (old : State) (command : TheRevokerCommand) (reply other : TheRevokerReply) (new left : State) →
        RevokerStep old command reply new → RevokerStep old command other left → (reply ≡ other) × (new ≡ left) }
    ensures alone { (old : State) (address : ℕ) (reply : TheRevokerReply) (new : State) (i : ℕ) →
        RevokerStep old (UntagGranule address) reply new → i ≢ (address - old.heap.base) / 16 →
        slice_index_or new.granules i (0, false) ≡ slice_index_or old.granules i (0, false) }
    ensures safe { (old : State) (command : TheRevokerCommand) (reply : TheRevokerReply) (new : State) →
        IsSafe old → RevokerStep old command reply new → IsSafe new }
    ensures machine { (old : State) (command : TheRevokerCommand) (reply : TheRevokerReply) (new : State) →
        IsMachine old → RevokerStep old command reply new → IsMachine new }
    // What the painted blocks have in memory stands in dirty pages, whatever the order of visits.
    ensures marked { (old : State) (command : TheRevokerCommand) (reply : TheRevokerReply) (new : State) (dirty : List Bool) →
        HasPages old dirty → IsDirtied old dirty → RevokerStep old command reply new → IsDirtied new (revoker_dirty_after old command dirty) }
    ensures steps_safe { (old : State) (events : List Event) (new : State) →
        IsSafe old → Runs Step old events new → IsSafe new }
    ensures steps_unused { (old : State) (events : List Event) (mid : State) (command : TheCommand) (reply : TheReply) (new : State) →
        IsSafe old → Runs Step old events mid → Step mid command reply new → IsUnused mid command reply }
    ensures follows_safe { (old : State) (events : List Event) (new : State) →
        IsSafe old → Runs Follows old events new → IsSafe new }
    ensures follows_unused { (old : State) (events : List Event) (mid : State) (command : TheCommand) (reply : TheReply) (new : State) →
        IsSafe old → Runs Follows old events mid → Follows mid command reply new → IsUnused mid command reply }
{
    any_placement_law();
    safe_reuse_law();
    sound_heap_law();
}

/// The passes of today, taken apart. A paint and then a visit of each page, in any order and any number of times, take the tags
/// that `begin` takes and leave what it leaves. Visits of all pages and untags of all registers leave an epoch that may be
/// released, and then is as `end` leaves it. A visit is the untags of its granules, in any order. And a release is an `end`
/// that takes no tag, after which each tagged word is in use or waits.
pub fn passes_law()
    ensures begun { (s mid : State) (reply : TheRevokerReply) (pages : List (ℕ × TheRevokerReply)) (new : State) →
        CoverMemory s pages → s.heap.is_open ≡ false → RevokerStep s Paint reply mid → Runs Follows mid (visits pages) new →
        (new ≡ after_begin s) × (cleared_in pages ≡ begin_takes s) }
    ensures ends { (s mid : State) (pages registers : List (ℕ × TheRevokerReply)) (new : State) →
        IsMachine s → s.heap.is_open ≡ true → CoverMemory s pages → CoverRegisters s registers →
        Runs Follows s (visits pages) mid → Runs Follows mid (register_untags registers) new →
        RevokerStep new Release (Released (bytes_in s.heap.painted)) (after_end s) × (cleared_in pages + cleared_in registers ≡ end_takes s) }
    ensures visited { (s : State) (page : ℕ) (granules : List (ℕ × TheRevokerReply)) (new : State) →
        s.heap.is_open ≡ true → page_granules * page < length s.granules → All (λ it. it.1 ≡ Cleared (cleared_by it.1)) granules →
        ((i : ℕ) → i < length s.granules → is_at_one s granules i ≡ is_in_page page i) →
        Runs Follows s (untags granules) new → RevokerStep s (Visit page) (Cleared (cleared_in granules)) new }
    ensures ended { (old : State) (bytes : ℕ) (new : State) →
        RevokerStep old Release (Released bytes) new → Step old End (Swept 0 bytes) new }
    ensures in_use { (old : State) (bytes : ℕ) (new : State) →
        IsSafe old → RevokerStep old Release (Released bytes) new → AreInUseOrWaiting new }
{
    safe_reuse_law();
}

/// The invariant of a revoker with a barrier at loads (Filardo et al. 2024, Cornucopia Reloaded): an epoch starts with it,
/// each page that is visited is seen, no command ends it whose loads are from pages that were seen, and with all pages seen
/// the painted blocks may be freed.
pub fn barrier_law()
    ensures start { (s : State) (pages : ℕ) → IsBarred (after_start s) (replicate pages false) }
    ensures kept { (old : State) (done : ℕ → Bool) (command : TheCommand) (reply : TheReply) (new : State) →
        IsSafe old → FitsTypes command → old.heap.is_open ≡ true → IsBarredAt old done → LoadsDone old done command →
        Follows old command reply new → IsBarredAt new done }
    ensures visited { (old : State) (seen : List Bool) (page cleared : ℕ) (new : State) →
        IsBarred old seen → RevokerStep old (Visit page) (Cleared cleared) new → IsBarred new (slice_set seen page true) }
    // So a page may be looked at granule by granule, with commands between.
    ensures untagged { (old : State) (done : ℕ → Bool) (address cleared : ℕ) (new : State) →
        IsBarredAt old done → RevokerStep old (UntagGranule address) (Cleared cleared) new → IsBarredAt new (λ i. done i || is_at old address i) }
    ensures untagged_register { (old : State) (done : ℕ → Bool) (r : ℕ) (reply : TheRevokerReply) (new : State) →
        IsBarredAt old done → RevokerStep old (UntagRegister r) reply new → IsBarredAt new done }
    // A load that isn't trapped is of a page of the heap, so a visit of that page before it is all that it waits for.
    ensures barrier { (old : State) (seen : List Bool) (rd ra : ℕ) (reply : TheRevokerReply) (new : State) →
        IsMachine old → HasPages old seen → old.heap.is_open ≡ true → RevokerStep old (Visit (page_at old ra)) reply new →
        LoadsSeen new (slice_set seen (page_at old ra) true) (LoadCap rd ra) }
    ensures release { (s : State) (seen : List Bool) →
        HasPages s seen → AreSeen seen → s.heap.is_open ≡ true → IsBarred s seen →
        RevokerStep s Release (Released (bytes_in s.heap.painted)) (after_release s) }
{
    any_placement_law();
    derivation_law();
}

/// An epoch of a revoker with a barrier at loads (Filardo et al. 2024, Cornucopia Reloaded): blocks are painted and each register
/// loses its tag, with no command between; then commands and visits in any order, where each load is from a page that was seen.
/// All through it no register holds a tagged word with its base in a painted block. Visits alone end it; and once all pages were
/// seen, the painted blocks are released, and no word is left.
pub fn reloaded_law()
    ensures start { (s mid : State) (reply : TheRevokerReply) (registers : List (ℕ × TheRevokerReply)) (new : State) →
        CoverRegisters s registers → s.heap.is_open ≡ false → RevokerStep s Paint reply mid → Runs Follows mid (register_untags registers) new →
        new ≡ after_start s }
    ensures registers { (first : State) (pages : ℕ) (events : List Event) (new : State) (left : List Bool) →
        IsMachine first → first.heap.is_open ≡ false → length first.granules ≡ 256 * pages →
        RunsBarred Follows (after_start first) (replicate pages false) events new left →
        (r : ℕ) → takes_tag new.heap.painted (slice_index_or new.registers r null_cell) ≡ false }
    ensures finishes { (s : State) (seen : List Bool) (pages : List (ℕ × TheRevokerReply)) (new : State) →
        s.heap.is_open ≡ true → HasPages s seen → CoverMemory s pages → Runs Follows s (visits pages) new →
        (left : List Bool) × RunsBarred Follows s seen (visits pages) new left × AreSeen left }
    ensures releases { (first : State) (pages : ℕ) (events : List Event) (new : State) (left : List Bool) →
        IsMachine first → first.heap.is_open ≡ false → length first.granules ≡ 256 * pages →
        RunsBarred Follows (after_start first) (replicate pages false) events new left → AreSeen left →
        RevokerStep new Release (Released (bytes_in new.heap.painted)) (after_release new) }
{
    any_placement_law();
    derivation_law();
    sound_heap_law();
}

/// An epoch of a revoker without a barrier (Filardo et al. 2020, Cornucopia): once blocks are painted all pages are dirty; then
/// commands and visits in any order, where a page that is visited is clean, until a tagged word is stored there. Each tagged word
/// in memory whose base lies in a painted block stands in a dirty page, all through it. Once all pages are clean and then
/// each register loses its tag, with no command between, the painted blocks are released, and no word is left.
pub fn cornucopia_law()
    ensures painted { (old : State) (pages : ℕ) (reply : TheRevokerReply) (new : State) →
        length old.granules ≡ 256 * pages → old.heap.is_open ≡ false → RevokerStep old Paint reply new → IsDirtied new (replicate pages true) }
    ensures dirtied { (first start : State) (reply : TheRevokerReply) (pages : ℕ) (events : List Event) (new : State) (left : List Bool) →
        IsMachine first → first.heap.is_open ≡ false → length first.granules ≡ 256 * pages → RevokerStep first Paint reply start →
        RunsTracked Follows start (replicate pages true) events new left → IsDirtied new left }
    ensures releases { (first start : State) (reply : TheRevokerReply) (pages : ℕ) (events : List Event) (mid : State) (left : List Bool) (registers : List (ℕ × TheRevokerReply)) (new : State) →
        IsMachine first → first.heap.is_open ≡ false → length first.granules ≡ 256 * pages → RevokerStep first Paint reply start →
        RunsTracked Follows start (replicate pages true) events mid left → AreClean left →
        CoverRegisters mid registers → Runs Follows mid (register_untags registers) new →
        RevokerStep new Release (Released (bytes_in new.heap.painted)) (after_release new) }
    // The same granule by granule: one that was looked at is due again only where a tagged word is stored there since. So a page
    // may be looked at with commands between, if its granules are due from before the first of them is looked at.
    ensures stored { (old : State) (due : ℕ → Bool) (command : TheCommand) (reply : TheReply) (new : State) →
        old.heap.is_open ≡ true → IsDueAt old due → Follows old command reply new → IsDueAt new (λ i. due i || stores_at old command i) }
    ensures looked { (old : State) (due : ℕ → Bool) (address cleared : ℕ) (new : State) →
        IsDueAt old due → RevokerStep old (UntagGranule address) (Cleared cleared) new → IsDueAt new (λ i. due i && not (is_at old address i)) }
    ensures none_due { (s : State) (due : ℕ → Bool) →
        s.heap.is_open ≡ true → IsDueAt s due → ((i : ℕ) → i < length s.granules → due i ≡ false) →
        ((r : ℕ) → takes_tag s.heap.painted (slice_index_or s.registers r null_cell) ≡ false) →
        RevokerStep s Release (Released (bytes_in s.heap.painted)) (after_release s) }
{
    any_placement_law();
    sound_heap_law();
}
