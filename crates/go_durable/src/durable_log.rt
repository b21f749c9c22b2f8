// A log on its disk, and one that was just opened.
ghost use Rattle.std.specs.Prelude.{◌≡◌, IsTrue};

use go_blocks::BlockPlace;
use go_disk::Disk;
use go_word::Edge;
use std::marker::Model;

/// A log on its disk. Nothing of it is pending: all its entries are stable.
#[derive(Drop)]
pub struct DurableLog<D> {
    pub(crate) disk: D,
    pub(crate) vertices: u32,
    pub(crate) front: u64,
    pub(crate) gate: u64,
    pub(crate) places: Vec<BlockPlace>,
}

impl<D> Model for DurableLog<D> {
    ghost use Rattle.go_durable.specs.LogState.{LogState, IsSound};

    ghost Value = { LogState D };

    ghost view = { λ log. record { disk = log.disk; vertices = log.vertices; front = log.front; gate = log.gate; places = log.places.items } };

    ghost invariant = { λ log. IsSound log.vertices log.front log.gate log.places.items };
}

impl<D> DurableLog<D> {
    /// The number of entries.
    pub fn front(&self) -> u64
        ensures { result ≡ self.now.front }
    {
        self.front
    }

    /// Each entry's vertices are below this.
    pub fn vertices(&self) -> u32
        ensures { result ≡ self.now.vertices }
    {
        self.vertices
    }

    /// Gives the disk back.
    pub fn into_disk(self) -> D
        ensures { result ≡ self.disk }
    {
        self.disk
    }
}

/// A log that was just opened, with its entries: the type says that the log stands for just these.
#[derive(Drop)]
pub struct Opened<D: Disk> {
    /// The log.
    pub log: DurableLog<D>,
    /// Its entries, the oldest first.
    pub edges: Vec<Edge>,
}

impl<D: Disk> Model for Opened<D> {
    ghost use Rattle.go_durable.specs.LogState.{OpenedLog};
    ghost use Rattle.go_durable.specs.Standing.{IsOpened};

    ghost Value = { OpenedLog D };

    ghost view = { λ opened. record { log = opened.log; edges = opened.edges.items } };

    ghost invariant = { λ opened. IsOpened D.device (record { log = opened.log; edges = opened.edges.items }) };
}
