// The ticks that are kept, oldest first.

ghost use Rattle.std.specs.Prelude.{◌≡◌, ◌∷◌, ◌++◌, [], map, OnErr, OnOk};
ghost use Rattle.std.specs.Arc.{arc_value};

use gs_bytes::OutOfMemory;
use gs_tape::Tick;
use std::alloc::Global;
use std::sync::Arc;

// Keeps one more.
pub fn keep(alloc: Global, kept: &mut Vec<Arc<Tick>>, tick: Tick) -> Result<(), OutOfMemory>
    ensures more { OnOk result (map arc_value kept.new.items ≡ map arc_value kept.old.items ++ tick ∷ []) }
    ensures same { OnErr result (kept.new.items ≡ kept.old.items) }
{
    let tick = Arc::new(alloc, tick)?;
    kept.push(tick)?;
    Ok(())
}
