// The unread rest of a recording. A call of a host hands back no reference, so it answers the length of that part of the lent bytes, which is
// their last one.
ghost use Rattle.std.specs.Prelude.{◌≡◌, length, drop};

// How many bytes a replay leaves unread from its place on, the last of the recording: how long `recording::rest` is, 0 past the end.
pub fn parnusild_rest_32_96_66(bytes: &[u8], place: usize) -> usize
    ensures { result ≡ length (drop place bytes.now) }
{
    recording::rest(bytes, place).len()
}
