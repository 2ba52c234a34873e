// The desk for callers in C and Rust: an archive of the exports whose names begin with gir_. Each is the function of its name in `desk`,
// with the same clause; include/gir.h declares them.
#![tactic(auto)]

ghost use Rattle.meaning.specs.Jobs.{comes};
ghost use Rattle.desk.specs.Answers.{ReadOut, CheckedOut, WroteOut};

use desk::Answer;

// `desk::gir_read`, for callers in C and Rust.
#[unsafe(no_mangle)]
pub extern "C" fn gir_read(area: &[u8], kind: u32, flags: u32, sheet: &mut [u8]) -> Answer
    ensures { ReadOut kind flags area.now sheet.old result sheet.new }
{
    desk::gir_read(area, kind, flags, sheet)
}

// `desk::gir_check`, for callers in C and Rust.
#[unsafe(no_mangle)]
pub extern "C" fn gir_check(area: &[u8], kind: u32, flags: u32, list: &mut [u32]) -> Answer
    ensures { CheckedOut (comes kind flags) area.now list.old result list.new }
{
    desk::gir_check(area, kind, flags, list)
}

// `desk::gir_write`, for callers in C and Rust.
#[unsafe(no_mangle)]
pub extern "C" fn gir_write(sheet: &[u8], area: &mut [u8]) -> Answer
    ensures { WroteOut sheet.now area.old result area.new }
{
    desk::gir_write(sheet, area)
}
