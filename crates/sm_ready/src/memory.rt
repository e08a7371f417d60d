//! What is in memory.

use sm_logs::Logs;
use sm_mgt::Mgt;
use sm_operation::Operation;
use sm_refs::Attachments;
use vhd_chain::Tree;

/// What a session keeps in memory beside its store.
#[derive(Drop)]
pub struct Memory {
    /// The images that are not new.
    pub tree: Tree,
    /// The places of the disks' records.
    pub records: Mgt,
    /// The logs of tracked disks.
    pub logs: Logs,
    /// The attached disks, and how many of them use each volume.
    pub attached: Attachments,
    /// What the collector is doing.
    pub operation: Operation,
}
