//! The steps of a repository: a command comes in, its reply goes out, and the disks change or stay as the machine has
//! it.
//!
//! **What is kept here.** A [`Session`] has a store of volumes and what is in memory of it: the images, the places of the
//! records, the logs of tracked disks, the attachments and what the collector does; a buffer of a block and its bitmap; a number for each image that there
//! may be, in which its children are counted; and whether a step has failed.
//! Sizes in commands and replies are in bytes, those in the table in extents, places in sectors.
//!
//! **The model** is that of `sm_ready`: the machine's disks are those that a read gives, its shape is that of what is in
//! memory (`store_state`); what a stop may show (`MayShow`), and that whatever it leaves is kept and passes the check of logs (`KeepsAll`). What
//! a command did is told with what it does to logs (`StoreSteps` in `specs/`).
//!
//! **What it promises.** [`Session`] steps as a run asks (`Steps` of `sm_run`): each reply is the machine's, or want of
//! memory; at every return, success and failure alike, whatever a stop leaves is kept, passes the check of logs and shows the disks from before
//! the step or those from after it; a refused step makes no write and no sync; behind an accepted one that makes all last nothing
//! is pending (`is_settling`), and the bytes of a write or a fill may be lost until then. A new disk takes the least free extents, in
//! rising order; and a step raises the sequence number by so many commits at most, whether it does its work or not
//! (`most_commits`, and for logs `most_log_commits`). No call changes what stands beside the store.
//!
//! The commands are those that make disks, also of one another, give them up, rename, resize and list them, the one that tells
//! of the images, those of guests (`is_guests`): a disk comes into use and goes out of it, and its sectors are read, written,
//! filled and made last; those of logs alone (`is_of_logs`): tracking of a disk begins or ends, and which pieces changed between two disks is told;
//! and the collector's. Why a command is refused is asked once, of `refuse` (`sm_refusals`), before the command
//! is carried out: so a command's crate is called only where no cause was found. Between two steps each image in memory is true of
//! its volume, whether or not the device was kept when it was opened: so a guest may always read and write.
//!
//! **Logs of tracked disks.** Tracking begins with a log without bits, and ends by its removal. A write or a fill marks its pieces first, and the
//! marks last before it begins; the log of a deleted disk goes behind the disk. A snapshot of a tracked disk has a log, with the bits so far, and
//! the disk's begins anew (`sm_tracking`). What a split needs is taken before the snapshot. What changed between two disks is told of the logs in
//! memory, and no call of the store is made. Whatever a stop leaves has of each disk, by itself, the log from before the step, the one from after it,
//! or one between. What these logs tell is true of all that a stop may show, where what memory's logs told was (`truthful` of `HasSteppedTo`). That the
//! log of a deleted disk goes behind the disk is said by no clause: a log that goes first loses what it told, and tells nothing that is not so.
//!
//! **The collector.** A step of it is the machine's next one, by table and memory (`gc_plan`). Each kind of step is a function of its
//! own (`gc_coalesce`; `swap` of `gc_leaf`; `deflate` of `sm_space`): an image that nothing reads through is removed, a volume is cut
//! to what it needs, a copy of a hidden image or of a disk's leaf begins, goes on by a block, is given up or ends, a child is linked,
//! and a parent takes its leaf's place. The reply tells the step and the operation from before it. No step changes a disk. Each but the
//! blocked and the idle one lowers the debt of what is in memory (`debt` of `sm_machine`), so such steps come to an end; the blocked
//! and the idle one do nothing. Only a step that begins may find that memory is wanting (`begins`). A command on the disk whose leaf is
//! being folded gives that up by its first commit (`gc_abandon`).
//!
//! [`Session::begin`] checks what stands in a store and repairs it first. After a step that failed no further one is
//! taken.
#![tactic(auto)]

mod collecting;
mod forks;
mod guests;
mod sessions;
mod sizes;
mod taking;
mod tracking;

pub use sessions::Session;
