// The names of the workloads.
ghost use Rattle.std.specs.Prelude.{◌≡◌};
ghost use Rattle.gsbench.specs.Workloads.{workload_named};

/// What is done many times.
#[derive(Clone, Copy)]
pub enum Workload {
    MulAdd,
    Encode,
    Parity,
    Restore,
    Messages,
    Receive,
    Split,
    Tape,
    TapeHeld,
    Choose,
    Turns,
    Views,
    Take,
    New,
}

/// The workload of a name.
pub fn workload_named(name: &[u8]) -> Option<Workload>
    ensures { result ≡ workload_named name.now }
{
    if name == b"mul_add".as_slice() {
        return Some(Workload::MulAdd);
    }
    if name == b"encode".as_slice() {
        return Some(Workload::Encode);
    }
    if name == b"parity".as_slice() {
        return Some(Workload::Parity);
    }
    if name == b"restore".as_slice() {
        return Some(Workload::Restore);
    }
    if name == b"messages".as_slice() {
        return Some(Workload::Messages);
    }
    if name == b"receive".as_slice() {
        return Some(Workload::Receive);
    }
    if name == b"split".as_slice() {
        return Some(Workload::Split);
    }
    if name == b"tape".as_slice() {
        return Some(Workload::Tape);
    }
    if name == b"tape_held".as_slice() {
        return Some(Workload::TapeHeld);
    }
    if name == b"choose".as_slice() {
        return Some(Workload::Choose);
    }
    if name == b"turns".as_slice() {
        return Some(Workload::Turns);
    }
    if name == b"views".as_slice() {
        return Some(Workload::Views);
    }
    if name == b"take".as_slice() {
        return Some(Workload::Take);
    }
    if name == b"new".as_slice() {
        return Some(Workload::New);
    }
    None
}
