// Bytes that move into a buffer.
ghost use Rattle.std.specs.Prelude.{◌≡◌, ◌-◌, ◌<◌, ◌≤◌, length, min};
ghost use Rattle.plan_base.specs.Disk.{ReadsAt};

// Copies what stands from a place on, as much as there is room for, but no more than `most`.
pub(crate) fn copy_from(from: &[u8], at: usize, most: usize, into: &mut [u8]) -> usize
    requires { 0 < most }
    ensures bound { result ≤ length into.new }
    ensures bytes { ReadsAt from.now at into.new result }
    ensures count { result ≡ min most (min (length from.now - at) (length into.new)) }
{
    if at >= from.len() {
        return 0;
    }
    let rest = &from[at..];
    let count = rest.len().min(into.len()).min(most);
    into[..count].copy_from_slice(&rest[..count]);
    count
}
