//! The rest of a stream after its header, and its picture (T.81, B.2).
ghost use Rattle.std.specs.Prelude.{◌≡◌, IfOk, None, OnOk, [], false, is_some, length, option_map};
ghost use Rattle.std.specs.Prelude.{map, replicate, suc, true};
ghost use Rattle.std.specs.List.{concat};
ghost use Rattle.jpeg_bits.specs.Reading.{Answers};
ghost use Rattle.jpeg_bits.specs.declared.beyond.Beyond.TheVariants.{Zeros};
ghost use Rattle.jpeg_meaning.specs.Limits.{exceeded_rest};
ghost use Rattle.jpeg_meaning.specs.Reported.{IsOfTurns, told_in_turns};
ghost use Rattle.jpeg_meaning.specs.Sound.{HasDecodedFrame, IsSound};
ghost use Rattle.jpeg_meaning.specs.States.{OnTold};
ghost use Rattle.jpeg_meaning.specs.FoundPlanes.{planes_of};
ghost use Rattle.jpeg_meaning.specs.Stream.{rest_showing, rest_within, segments_at, told_of};
ghost use Rattle.jpeg_meaning.specs.declared.before.Before.TheVariants.{Elsewhere};
ghost use Rattle.jpeg_decoder.specs.Bytes.{AreLinesOf, AreOwnPlanes, IsWhole, shape_of};
ghost use Rattle.jpeg_decoder.specs.Spared.{sent_picture, shown_picture, shown_rest};
ghost use Rattle.jpeg_decoder.specs.Steps.{Returns, with_decoded};

use crate::picture::lines::Lines;
use crate::picture::planes::found_planes;
use crate::picture::spared::{check_sent, spare_colours};
use crate::picture::whole::picture;
use crate::scan::decoded::Decoded;
use crate::scan::work::{Budget, Walk};
use crate::stream::state::State;
use crate::stream::tables::{Missing, needed};
use crate::stream::turns::read_segments;
use jpeg_bits::beyond::Beyond;
use jpeg_bits::error::{Error, Result};
use jpeg_bits::marker::Marker;
use jpeg_bits::source::Source;
use jpeg_meaning::settings::Settings;
use std::alloc::Global;
use std::io::Read;

/// Returns the lines of the picture of what was found, which is taken, if scans have brought all
/// components of the frame.
#[tactic(auto, unfolding(crate::specs::Spared::sent_picture), using(crate::proofs::Rules::refused))]
fn sent_picture(
    alloc: Global,
    state: &State,
    decoded: &mut Decoded,
    settings: Settings,
) -> Result<Lines>
    requires sound { IsSound (with_decoded state.now decoded.old) }
    ensures meant { let expected = sent_picture settings (with_decoded state.now decoded.old) in
        Returns expected (λ l. concat l) result }
    ensures lines { IfOk result (λ l. AreLinesOf
        (option_map (shape_of settings) state.now.said.frame) l) }
{
    let frame = needed(
        alloc,
        state.said.frame.as_ref(),
        Missing::Frame(Marker::EOI),
    )?;
    check_sent(alloc, state, frame, decoded)?;
    picture(alloc, state, decoded, settings)
}

/// Returns the lines of the picture of what was found, which is taken. Where planes were given to
/// components before their scans, the scans must have brought them.
fn shown_picture(
    alloc: Global,
    state: &State,
    decoded: &mut Decoded,
    settings: Settings,
    spared: bool,
) -> Result<Lines>
    requires sound { IsSound (with_decoded state.now decoded.old) }
    ensures meant { let expected = shown_picture spared settings
        (with_decoded state.now decoded.old) in
        Returns expected (λ l. concat l) result }
    ensures lines { IfOk result (λ l. AreLinesOf
        (option_map (shape_of settings) state.now.said.frame) l) }
{
    if spared {
        sent_picture(alloc, state, decoded, settings)
    } else {
        picture(alloc, state, decoded, settings)
    }
}

/// Reads the rest of a stream, after its header, and returns what its scans have given, which is
/// taken. `exceeded` says whether a scan was refused since it codes more blocks than the limit
/// leaves.
#[tactic(auto, unfolding(jpeg_meaning::specs::Stream::segments_at))]
fn read_found<R: Read + Drop>(
    alloc: Global,
    source: &mut Source<R>,
    state: &mut State,
    max_blocks: Option<u64>,
    exceeded: &mut bool,
) -> Result<Decoded>
    requires sound { IsSound state.old }
    ensures reads { Answers (λ d. with_decoded state.new d)
        (λ bytes. segments_at max_blocks false Elsewhere state.old None bytes) source.old result
        source.new }
    ensures told { OnTold source.old source.new result (told_of state.new.said
        ≡ told_in_turns max_blocks (suc (length source.old.bytes)) false state.old
        source.old.bytes) }
    ensures turns { source.old.known ≡ true → IsOfTurns
        (λ n. told_in_turns max_blocks n false state.old source.old.bytes)
        (told_of state.new.said) }
    ensures exceeded { OnTold source.old source.new result (exceeded.new
        ≡ exceeded_rest max_blocks Zeros state.old source.old.bytes) }
    ensures framed { IfOk result (λ _. is_some state.new.said.frame ≡ true) }
    ensures stays { is_some state.old.said.frame ≡ true → state.new.said.frame
        ≡ state.old.said.frame }
    ensures sound { IfOk result (λ d. IsSound (with_decoded state.new d)) }
    ensures emptied { (state.new.kept ≡ []) × (state.new.planes ≡ replicate 4 None)
        × (state.new.samples ≡ replicate 4 None) }
{
    let mut walk = Walk {
        budget: Budget {
            left: max_blocks,
            exceeded: false,
        },
        rows: None,
    };
    let ended = read_segments(alloc, source, state, false, Beyond::Zeros, &mut walk);
    *exceeded = walk.budget.exceeded;
    let decoded = std::mem::replace(&mut state.decoded, Decoded::new(alloc));
    ended?;
    Ok(decoded)
}

/// Reads the rest of a stream, after its header, and gives the lines of its picture, as `read_rest`
/// does, where planes were given to components before their scans or not.
#[tactic(auto, unfolding(jpeg_meaning::specs::Stream::rest_showing))]
fn read_shown<R: Read + Drop>(
    alloc: Global,
    source: &mut Source<R>,
    state: &mut State,
    settings: Settings,
    spared: bool,
    exceeded: &mut bool,
) -> Result<Lines>
    requires sound { IsSound state.old }
    ensures reads { Answers (λ l. (told_of state.new.said, concat l))
        (shown_rest spared settings state.old) source.old result source.new }
    ensures told { OnTold source.old source.new result (told_of state.new.said
        ≡ told_in_turns settings.max_blocks (suc (length source.old.bytes)) false state.old
        source.old.bytes) }
    ensures turns { source.old.known ≡ true → IsOfTurns
        (λ n. told_in_turns settings.max_blocks n false state.old source.old.bytes)
        (told_of state.new.said) }
    ensures exceeded { OnTold source.old source.new result (exceeded.new
        ≡ exceeded_rest settings.max_blocks Zeros state.old source.old.bytes) }
    ensures framed { IfOk result (λ _. is_some state.new.said.frame ≡ true) }
    ensures stays { is_some state.old.said.frame ≡ true → state.new.said.frame
        ≡ state.old.said.frame }
    ensures frames { OnOk result (HasDecodedFrame state.new) }
    ensures lines { IfOk result (λ l. AreLinesOf
        (option_map (shape_of settings) state.new.said.frame) l) }
    ensures size { IfOk result (λ l. IsWhole
        (option_map (shape_of settings) state.new.said.frame) (concat l)) }
    ensures emptied { (state.new.kept ≡ []) × (state.new.planes ≡ replicate 4 None)
        × (state.new.samples ≡ replicate 4 None) }
{
    let mut decoded = read_found(alloc, source, state, settings.max_blocks, exceeded)?;
    shown_picture(alloc, state, &mut decoded, settings, spared)
}

/// Reads the rest of a stream, after its header, and gives the lines of its picture. No blocks or
/// planes are kept. `exceeded` says whether a scan was refused since it codes more blocks than the
/// limit leaves.
pub fn read_rest<R: Read + Drop>(
    alloc: Global,
    source: &mut Source<R>,
    state: &mut State,
    settings: Settings,
    exceeded: &mut bool,
) -> Result<Lines>
    requires sound { IsSound state.old }
    ensures reads { Answers (λ l. (told_of state.new.said, concat l))
        (rest_within settings.max_blocks settings state.old) source.old result source.new }
    ensures told { OnTold source.old source.new result (told_of state.new.said
        ≡ told_in_turns settings.max_blocks (suc (length source.old.bytes)) false state.old
        source.old.bytes) }
    ensures turns { source.old.known ≡ true → IsOfTurns
        (λ n. told_in_turns settings.max_blocks n false state.old source.old.bytes)
        (told_of state.new.said) }
    ensures exceeded { OnTold source.old source.new result (exceeded.new
        ≡ exceeded_rest settings.max_blocks Zeros state.old source.old.bytes) }
    ensures framed { IfOk result (λ _. is_some state.new.said.frame ≡ true) }
    ensures stays { is_some state.old.said.frame ≡ true → state.new.said.frame
        ≡ state.old.said.frame }
    ensures frames { OnOk result (HasDecodedFrame state.new) }
    ensures lines { IfOk result (λ l. AreLinesOf
        (option_map (shape_of settings) state.new.said.frame) l) }
    ensures size { IfOk result (λ l. IsWhole
        (option_map (shape_of settings) state.new.said.frame) (concat l)) }
    ensures emptied { (state.new.kept ≡ []) × (state.new.planes ≡ replicate 4 None)
        × (state.new.samples ≡ replicate 4 None) }
{
    match spare_colours(alloc, state, settings) {
        Ok(spared) => read_shown(alloc, source, state, settings, spared, exceeded),
        Err(_) => {
            state.decoded = Decoded::new(alloc);
            Err(Error::OutOfMemory)
        }
    }
}

/// Reads the rest of a stream, after its header, and gives the planes of its components, each at
/// its own size. No blocks or planes are kept. `exceeded` says whether a scan was refused since it
/// codes more blocks than the limit leaves.
#[tactic(auto, unfolding(jpeg_meaning::specs::Stream::rest_showing))]
pub fn read_rest_planes<R: Read + Drop>(
    alloc: Global,
    source: &mut Source<R>,
    state: &mut State,
    settings: Settings,
    exceeded: &mut bool,
) -> Result<Vec<Vec<u8>>>
    requires sound { IsSound state.old }
    ensures reads { Answers (λ v. (told_of state.new.said, map (λ p. p.items) v.items))
        (rest_showing settings.max_blocks (planes_of settings.limit) state.old) source.old result
        source.new }
    ensures told { OnTold source.old source.new result (told_of state.new.said
        ≡ told_in_turns settings.max_blocks (suc (length source.old.bytes)) false state.old
        source.old.bytes) }
    ensures turns { source.old.known ≡ true → IsOfTurns
        (λ n. told_in_turns settings.max_blocks n false state.old source.old.bytes)
        (told_of state.new.said) }
    ensures exceeded { OnTold source.old source.new result (exceeded.new
        ≡ exceeded_rest settings.max_blocks Zeros state.old source.old.bytes) }
    ensures framed { IfOk result (λ _. is_some state.new.said.frame ≡ true) }
    ensures stays { is_some state.old.said.frame ≡ true → state.new.said.frame
        ≡ state.old.said.frame }
    ensures frames { OnOk result (HasDecodedFrame state.new) }
    ensures sizes { IfOk result (λ v. AreOwnPlanes state.new.said.frame
        (map (λ p. p.items) v.items)) }
    ensures emptied { (state.new.kept ≡ []) × (state.new.planes ≡ replicate 4 None)
        × (state.new.samples ≡ replicate 4 None) }
{
    let mut decoded = read_found(alloc, source, state, settings.max_blocks, exceeded)?;
    found_planes(alloc, state, &mut decoded, settings.limit)
}
