//! The ground of a session: what holds between two steps of the table, of what is in memory and of the sectors, and what
//! each kind of change makes of it.
//!
//! **What is kept here.** [`Memory`] is what a session keeps in memory beside its store: the tree of the images, the records
//! of the disks, the logs of tracked disks, the attachments, and what the collector is doing.
//!
//! **What it is.** `Known` is what a contract sees of it. `shape_in` is the machine's shape, read off the table and memory
//! alone; `outline_in` is what the checks of an opening look at, read off the same. `IsOrderly` and `IsTidy` say what
//! holds of table and memory, whatever a device holds; `IsReady` says what holds of the sectors: each image is steady, only
//! own images of disks attached for writing have sectors that a stop may leave otherwise than a read gives them, and the
//! records and the logs in memory are those that a read gives.
//!
//! **What it promises.** Of a store that is ready, whatever a stop leaves is kept: the checks of an opening pass, each block
//! with a slot holds a sector (`KeptLaws`); it has the outline of memory (`LeftLaws`) and its logs (`LogLaws`), and shows the disks
//! that a read gives, but for what guests wrote (`AlikeLaws`). A read gives the machine's state (`StateLaws`, by `ShapeLaws` and
//! `LogRows`). The laws by kind of change say what a stop
//! may leave while it is made, and that the store is ready behind it: a single commit (`CommitLaws`), a new volume beside the
//! images (`FirstLaws`), its record (`MiddleLaws`), its mark taken away (`LastLaws`), an image that nobody uses (`RemoveLaws`),
//! a guest's write into a VHD image (`GuestLaws`) and into a raw one (`RawGuestLaws`), both by what a stop leaves of the image
//! (`StopLaws`), and that the store is ready behind it (`AfterLaws`). A new volume beside the images goes, or gets more extents, and no
//! disk changes (`GoneLaws`, `law_gone` and `law_grew`; both by `BesideLaws`, of any change of one new volume alone).
//!
//! For an opening, whatever kind its images have: the rows that are read off a table (`LoadLaws`) and the places of the
//! records make memory that is orderly (`BegunLaws`); it is at rest again behind each repair (`AgainLaws`), where a volume
//! that is new goes (`NewVolumeLaws`) and where a record of no disk is wiped (`WipeLaws`); the table is then the one from
//! before without its new volumes (`CleanLaws`), and the shape the one that an opening is to make (`OpenedLaws`).
//!
//! Why a command is refused is said by table and memory alone (`Answers`; `sm_refusals` finds it), before a command is taken; a
//! command's crate requires that no cause was found (`IsAllowed`). Sizes are in bytes where a command gives them, else in
//! sectors, and [`rounded`] gives these; room is counted in extents: [`need`] gives those that a command takes, and
//! [`extents_needed`] those of a raw disk. [`image_name`] is the name of a disk's own image; [`named`], [`new_uuid`] and [`forked`] are
//! the disks of which a command speaks.
//!
//! **What a command cites.** What is known where no cause refuses it (`RefusalLaws`), and of the extents that it takes
//! (`NeedLaws`); what the machine looks up of a disk, by what is in memory (`LookLaws`); what was taken, whether it was
//! refused, answered, accepted or stopped (`TakenLaws`), by the commands that are built or by all; what a stop leaves in a
//! chain of calls of the store (`ChainLaws`), with which logs (`LogStores`), and what it shows at rest (`ShowLaws`); the image of the disk that a command
//! names (`OwnLaws`); a command that makes all last and changes memory alone (`SyncLaws`, `UsedLaws`), and one that gives a
//! disk another label (`LabelLaws`); a new volume for an image, and the place of its disk's record (`BeginLaws`); an image and
//! its disk's record made in two commits (`NewLaws`, `MakingLaws`), whatever
//! is attached and whatever operation runs (`OperationLaws`); a VHD image that was just made, which is steady and, without
//! a parent, reads as zeros (`MadeLaws`); the machine's tables as maps of images (`MapLaws`); room for rows (`RoomLaws`,
//! `RowRoomLaws`); what is asked of the visible image of a UUID (`ShownLaws`); a list in order with one element more
//! (`InsertLaws`); a row that was taken out of the tree, changed and put back (`PutBackLaws`); that an image stands in its volume
//! and is true of it (`TruthLaws`), and stays so (`FrameLaws`); a visible image at which the operation does not work (`ApartLaws`);
//! what the parent of a copy holds of its child, behind a guest's write into the child and behind the copy of one block (`HeldLaws`,
//! `DirtyLaws`), and that it has room for the blocks of both (`RoomyLaws`); an image of memory as a read gives it (`NowLaws`);
//! a disk that grows, as the disks show it (`RaisedLaws`), and what a stop leaves of it (`GrownLaws`); changes made one after the
//! other (`RunLaws`).
//!
//! The definitions are in `specs/`: `Known` (what is in memory, and its shape), `Outlined` (its outline), `Orderly` and `Ready`
//! (the two invariants), `Shown` (the visible image of a UUID), `Refusing` (when an answer is the machine's), `Stores` (the
//! content of a store), `Framing` (a session between two steps, and what a step did to the store: what each step asks and promises),
//! `Done` (what a call of a step did), `Runs` (changes allowed one after the other), `Repairs` and `Cleaned` (what an opening repairs, and the table that
//! it leaves).
#![tactic(auto)]

mod asking;
mod memory;
mod needs;

pub use asking::{also_named, forked, image, image_name, is_vhd, named, new_uuid};
pub use memory::Memory;
pub use needs::{disk_pieces, extents_needed, log_room, need, rounded, thick};
