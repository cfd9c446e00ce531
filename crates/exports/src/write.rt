// A recording written into the lent bytes.
ghost use Rattle.recording_format.specs.Words.{Words};
ghost use Rattle.exports.specs.Wrote.{Wrote};

// Writes a recording of the kind that is told, 253, 254 or 255, from numbers: the refusal, 0 for none, and its place; for none, how many bytes were
// written. Each number has 32 bits: `numbers` hands that fact on, as the writer's does.
pub fn parnusild_write_32_96_66(
    kind: u32,
    tasks: &[u32],
    links: &[u32],
    events: &[u32],
    bytes: &mut [u8],
    place: &mut usize,
) -> u8
    ensures answer { Wrote kind tasks.now links.now events.now bytes.old result place.new bytes.new }
    ensures numbers { Words tasks.now × (Words links.now × Words events.now) }
{
    let written = recording_write::write(kind, tasks, links, events, bytes);
    *place = written.place;
    written.refusal
}
