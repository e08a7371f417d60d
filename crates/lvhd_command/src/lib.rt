//! The program, over any device, source and sink: a repository is made of a device, a script is answered on it, the lines that a
//! number draws are tried on a new one, a disk is sent as a VHD file, or one is made of such a file.
//!
//! **What is kept here.** Nothing. [`lvhd`] takes the words, the device, the source of the script or of a file and the sink of the
//! replies, and hands the device back at every return. A device is counted in sectors of 512 bytes.
//!
//! **The model** (`specs/`). `Words` says what the words ask for, `Texts` the lines that the program prints of itself,
//! `Statuses` the exit status. `Devices`: a device is kept where each image that a stop may leave of it opens again
//! (`IsKeptDevice`), it may show the disks of each such image (`MayShowOn`), and it is truthful where what logs tell of each such image is true
//! (`IsTruthfulDevice`). `Sessions`: the site, the table, the content and the state of
//! an open session. `Formatting`, `Running`, `Trials`, `Exporting` and `Importing` say by status what each word did.
//!
//! **What it promises.** [`lvhd`] on a device that tells its content and is kept, with the word `run`, at every return: the
//! device is kept; what the sink got are the machine's replies to the lines that were read, and a front of one more; and
//! whatever a stop leaves shows the disks after the lines read, the interrupted one wholly there or absent, each sector
//! as it was after some prefix that reaches the last acknowledged line that changed more than sectors (`RunDid`, which
//! cites `HasRun` of `sm_run`). At status 0 the script was read to its end, every line was answered, and a stop shows the
//! machine's disks alone; a read gives them, and no record of no disk. The label's sizes and UUID stay, and so does all that stands on the
//! device beside the repository (`KeepsBeside`). A repository of version 1 is taken over by version 2 as it is opened: the same group
//! stands on whatever a stop leaves, by the one or by the other.
//!
//! Whatever the words are, on a device that is kept and on which what the logs of tracked disks tell was true at the entry, it is true at every
//! return, whatever a stop leaves (`truthful`, `IsTruthfulDevice`). It is so of what a format leaves ([`law_formatted`]) and where no disk is
//! tracked ([`law_untracked`]). Behind each line of a run on such a device no piece is told of two snapshots that the run made which no accepted
//! write or fill between them reached (`NamesNoMore`).
//!
//! On a device on which a check of an opening fails, kept or not, one line says why, nothing is read of the script, and
//! nothing is written, whatever the status (`HasStayed`). A kept device that was not opened for another cause shows nothing
//! new, image by image (`ShowsNothingNew`). The answer is one alone ([`law_exact`]). With the word `format`: exactly when it is
//! refused, and that a stop leaves what was there, no repository, or the new one whole (`FormatDid`), and beside the new one what
//! was there; sizes out of their ranges and a device that is too small leave it untouched whatever the status (`CannotFormat`).
//! What a format leaves is kept and has no disks ([`law_formatted`]), so the premise is met.
//!
//! With the word `trial`: at status 0 one line was printed, whose numbers are those of the machine's replies and shape over the 20,000
//! lines that the number draws, stepped on a new repository on this device, where nothing is pending; with another status a stop leaves what was
//! there, no repository, or a device that is kept and truthful (`TrialDid`). Nothing beside the new repository changes, and a device that is too small
//! stays as it is.
//!
//! With the word `export`, on a device that is kept: at status 0 the sink got the file of the disk, by `ExportOf` of what a read of
//! the device gives now, and read as the standard says this file holds the sectors of the disk (`IsFileOf`); with another status a front of
//! it, or the line that says why not, or a front of that (`ExportSent`). The device is kept, and as an opening leaves it, with the disks
//! that it had, in the shape that an opening makes (`IsAsOpened`). What is printed of a refusal is so whatever the device holds (`ExportSaid`). All
//! of it is one record, `ExportDid`.
//!
//! With the word `import`, on a device that is kept: at status 0 the source was read to its end, nothing is pending, and a stop shows the disks
//! from before and the one that the bytes of the source hold, and no others; at status 3 these or the disks from before; with any other
//! status the disks from before, sector by sector (`ImportLeft`). At status 10 one line says what refuses the file, by the shape of the
//! repository or by the bytes (`ImportTold`). The device is kept at every return, and its label stays. Where the UUID, the number of
//! images or the sequence number refuses it nothing is read of the source (`IsRefusedAtOnce`). A VHD file that there is room for is taken
//! where no call fails (`IsImportable`). What holds at each status is one record, `ImportDid`.
//!
//! The statuses of a fault come exactly where a call failed; an import has two failed calls and status 3 where the source failed, and then the
//! device, as the new volume was to be removed. Want of memory has no cause; it comes before the first write but in an export,
//! whose opening may have made its repairs by then, in an import, and in a trial, which it may end at any line.
//!
//! **What it costs.** `run` takes one line buffer, then the memory of an opening, and what a step takes; the script is read
//! in pieces that end at a newline. `export` takes the memory of an opening, and that of one block and its bitmap; `import` that of an opening, of the table of the new image and
//! of the entries of the file's table, and a page.
#![tactic(auto)]

mod exporting;
mod formatting;
mod importing;
mod laws;
mod opening;
mod running;
mod statuses;
mod texts;
mod top;
mod trials;
mod words;

pub use exporting::run_export;
pub use formatting::run_format;
pub use laws::{law_exact, law_formatted, law_untracked};
pub use opening::open;
pub use running::run_script;
pub use statuses::Status;
pub use top::lvhd;
pub use trials::run_trial;
pub use words::{Form, Request, Wanted};
