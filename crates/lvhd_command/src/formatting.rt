//! The word `format`.

ghost use Rattle.std.specs.Prelude.{◌≡◌, ◌≢◌, ◌≤◌, is_err, if◌then◌else◌};
ghost use Rattle.lvhd_command.specs.declared.statuses.Status.TheVariants.{Device, Sink, Source, Words};
ghost use Rattle.sm_disk.specs.Held.{Rose};
ghost use Rattle.lvhd_command.specs.Formatting.{FormatDid, CannotFormat, KeepsBesideNew, asked, format_sides};

use crate::statuses::Status;
use crate::texts::{print_bad_geometry, print_formatted, print_too_small};
use crate::words::Request;
use sm_base::{Failed, Geometry};
use sm_disk::{Disk, Sink};
use std::alloc::Global;
use vg_store::{FormatFault, Formatted, format};

/// Makes a repository of a device, and says so, or says why not. Where none can be made the device is not touched, whatever
/// the status, and else what is no part of the repository is left as it is.
pub fn run_format<D: Disk, K: Sink>(
    alloc: Global,
    disk: &mut D,
    request: &Request,
    sink: &mut K,
) -> Status
    ensures size { D.size disk.new ≡ D.size disk.old }
    ensures counts { D.faults disk.old ≤ D.faults disk.new }
    ensures sink_counts { K.faults sink.old ≤ K.faults sink.new }
    ensures words { result ≢ Words }
    ensures source { result ≢ Source }
    ensures device { result ≡ Device → Rose (D.faults disk.old) (D.faults disk.new) }
    ensures sink { result ≡ Sink → Rose (K.faults sink.old) (K.faults sink.new) }
    ensures calm { result ≢ Device → D.faults disk.new ≡ D.faults disk.old }
    ensures sink_calm { result ≢ Sink → K.faults sink.new ≡ K.faults sink.old }
    ensures beside { D.told → KeepsBesideNew (D.size disk.old) (asked request.now) (D.held disk.old) (D.held disk.new) }
    ensures did { FormatDid (format_sides D.size D.told D.held D.faults K.content K.faults disk.old disk.new sink.old sink.new)
        (asked request.now) result }
    ensures cannot_format { CannotFormat (D.size disk.old) (asked request.now) → disk.new ≡ disk.old }
{
    let Some(geometry) = Geometry::of(request.extent, request.block, request.entries) else {
        return said(print_bad_geometry(sink), Status::Refused);
    };
    match format(alloc, disk, geometry, request.repository) {
        Ok(Formatted { extents, free }) => {
            said(print_formatted(sink, extents, free), Status::Done)
        }
        Err(FormatFault::TooSmall { sectors }) => {
            said(print_too_small(sink, sectors), Status::Refused)
        }
        Err(FormatFault::Device) => Status::Device,
        Err(FormatFault::NoMemory) => Status::Memory,
    }
}

/// The status after a line was to be printed.
pub fn said(printed: Result<(), Failed>, status: Status) -> Status
    ensures { result ≡ (if is_err printed then Sink else status) }
{
    match printed {
        Ok(()) => status,
        Err(_) => Status::Sink,
    }
}
