// The records in messages for C (include/foamgangway.h): each export is the library's function, and promises what that does.
#![tactic(auto)]

ghost use Rattle.std.specs.Prelude.{◌≡◌};
ghost use Rattle.records.specs.Reason.{Worded};
ghost use Rattle.records.specs.Records.{
  exit_bytes,
  old_exit_bytes,
  old_tick_bytes,
  tick_bytes,
  Wrote,
  read_exit,
  read_old_exit,
  read_old_tick,
  read_tick,
};

use records::exit::ExitRead;
use records::old::{OldExitRead, OldTickRead};
use records::reason::Text;
use records::tick::TickRead;
use records::{exit, old, reason, tick};

// The text of the word of a reason.
#[unsafe(no_mangle)]
pub extern "C" fn fg_reason_word(reason: u16) -> Text
    ensures { Worded reason result }
{
    reason::fg_reason_word(reason)
}

// ---- ticks
#[unsafe(no_mangle)]
pub extern "C" fn fg_write_tick(out: &mut [u8], id: u64) -> u64
    ensures { Wrote (tick_bytes id) out.old result out.new }
{
    tick::fg_write_tick(out, id)
}

// Of either edition.
#[unsafe(no_mangle)]
pub extern "C" fn fg_read_tick(bytes: &[u8]) -> TickRead
    ensures { result ≡ read_tick bytes.now }
{
    tick::fg_read_tick(bytes)
}

#[unsafe(no_mangle)]
pub extern "C" fn fg_write_old_tick(out: &mut [u8], id: u32) -> u64
    ensures { Wrote (old_tick_bytes id) out.old result out.new }
{
    old::fg_write_old_tick(out, id)
}

#[unsafe(no_mangle)]
pub extern "C" fn fg_read_old_tick(bytes: &[u8]) -> OldTickRead
    ensures { result ≡ read_old_tick bytes.now }
{
    old::fg_read_old_tick(bytes)
}

// ---- exit notices
#[unsafe(no_mangle)]
pub extern "C" fn fg_write_exit(out: &mut [u8], actor: u64, reason: u16, monitor: u64) -> u64
    ensures { Wrote (exit_bytes actor reason monitor) out.old result out.new }
{
    exit::fg_write_exit(out, actor, reason, monitor)
}

// Of either edition.
#[unsafe(no_mangle)]
pub extern "C" fn fg_read_exit(bytes: &[u8]) -> ExitRead
    ensures { result ≡ read_exit bytes.now }
{
    exit::fg_read_exit(bytes)
}

#[unsafe(no_mangle)]
pub extern "C" fn fg_write_old_exit(out: &mut [u8], actor: u32, reason: u16, monitor: u32) -> u64
    ensures { Wrote (old_exit_bytes actor reason monitor) out.old result out.new }
{
    old::fg_write_old_exit(out, actor, reason, monitor)
}

#[unsafe(no_mangle)]
pub extern "C" fn fg_read_old_exit(bytes: &[u8]) -> OldExitRead
    ensures { result ≡ read_old_exit bytes.now }
{
    old::fg_read_old_exit(bytes)
}
