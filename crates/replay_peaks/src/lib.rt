// Building a summary of peaks and checking one against a file, each asked of the proved entry and of the host boundary:
// whether both answer as recorded.
#![tactic(auto)]

ghost use Rattle.std.specs.Prelude.{◌≡◌, OnErr};
ghost use Rattle.replay_list.specs.Said.{verdict_of};
ghost use Rattle.replay_peaks.specs.Built.{entry_builds, host_builds, left_built, both_build};
ghost use Rattle.replay_peaks.specs.Compared.{entry_compares, host_compares, both_compare};

use replay_list::{
    Recorded, Verdict, fill_bytes, is_answered, is_said, judged, of_answer, of_result,
    read_recorded,
};
use std::io;
use std::io::Read;

// Whether the entry builds the file's summary as recorded. The room is changed at `spoiled` before it is compared.
fn build_by_entry(file: &[u8], spoiled: usize, room: &mut [u8], want: Recorded) -> bool
    ensures says { result ≡ entry_builds file.now spoiled want room.old }
    ensures leaves { room.new ≡ left_built file.now spoiled room.old }
{
    fill_bytes(room);
    let said = of_answer(peaks::build_peaks(file, room));
    is_answered(said, spoiled, room, want)
}

// Whether the host boundary does. What was recorded is taken for what it does not tell.
fn build_by_host(file: &[u8], spoiled: usize, room: &mut [u8], want: Recorded) -> bool
    ensures says { result ≡ host_builds file.now spoiled want room.old }
    ensures leaves { room.new ≡ left_built file.now spoiled room.old }
{
    fill_bytes(room);
    let said = of_result(ncw::ncw_peaks(file, room), want);
    is_answered(said, spoiled, room, want)
}

// Both are asked, one after the other in one room.
fn judge_build(file: &[u8], spoiled: usize, room: &mut [u8], want: Recorded) -> Verdict
    ensures says { let same = both_build file.now spoiled want room.old in
        result ≡ verdict_of same want }
    ensures leaves { let between = left_built file.now spoiled room.old in
        room.new ≡ left_built file.now spoiled between }
{
    let by_entry = build_by_entry(file, spoiled, room, want);
    let by_host = build_by_host(file, spoiled, room, want);
    judged(by_entry && by_host, want)
}

// Builds the file's summary, and compares with what the list says next. The room is changed on purpose at its word
// `spoiled`, where it reaches so far.
pub fn build<R: Read>(
    list: &mut R,
    file: &[u8],
    spoiled: usize,
    room: &mut [u8],
) -> io::Result<Verdict>
    ensures kept { OnErr result (room.new ≡ room.old) }
{
    let want = read_recorded(list, false)?;
    Ok(judge_build(file, spoiled, room, want))
}

// Whether the entry says of the summary and the file what was recorded.
fn compare_by_entry(summary: &[u8], file: &[u8], want: Recorded) -> bool
    ensures { result ≡ entry_compares summary.now file.now want }
{
    is_said(of_answer(peaks::compare_peaks(summary, file)), want)
}

// Whether the host boundary does.
fn compare_by_host(summary: &[u8], file: &[u8], want: Recorded) -> bool
    ensures { result ≡ host_compares summary.now file.now want }
{
    is_said(of_result(ncw::ncw_peaks_check(summary, file), want), want)
}

// Both are asked. Neither is lent a room: a length of 1 is yes, 0 is no.
fn judge_check(summary: &[u8], file: &[u8], want: Recorded) -> Verdict
    ensures { let same = both_compare summary.now file.now want in
        result ≡ verdict_of same want }
{
    let by_entry = compare_by_entry(summary, file, want);
    let by_host = compare_by_host(summary, file, want);
    judged(by_entry && by_host, want)
}

// Checks the summary against the file, and compares with what the list says next.
pub fn check<R: Read>(list: &mut R, summary: &[u8], file: &[u8]) -> io::Result<Verdict> {
    let want = read_recorded(list, false)?;
    Ok(judge_check(summary, file, want))
}
