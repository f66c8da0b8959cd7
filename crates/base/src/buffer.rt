// Parts of a lent buffer: reading one, and writing one.
ghost use Rattle.std.specs.Prelude.{◌≡◌, ◌+◌, ◌≤◌, length};
ghost use Rattle.base.specs.Buffer.{put};

// Lends the part of buffer that begins at `at` to the copier.
#[tactic(auto, unfolding(crate::specs::Buffer::put))]
pub fn copy_at(buffer: &mut [u8], at: usize, source: &[u8])
    requires { at + length source.now ≤ length buffer.old }
    ensures { buffer.new ≡ put buffer.old at source.now }
{
    let end = at + source.len();
    buffer[at..end].copy_from_slice(source);
}

// So many bytes of a buffer from an index on; none where it has not so many.
pub fn part(buffer: &[u8], at: usize, count: usize) -> &[u8] {
    match at.checked_add(count) {
        Some(end) if end <= buffer.len() => &buffer[at..end],
        _ => &[],
    }
}
