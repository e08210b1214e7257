//! Laws of the calls of a memory, each the contract of a function that does nothing.
ghost use Rattle.mem_image.specs.Laws.{CallsKeepPictures, ReadsGiveAll, WritesReadBack, WritesLeaveOthers, CopiesAreWrites, FillsAreWrites, MadeTakesNext, NullIsPastLimit, ReleasedIsDead, LaidIsThere, AddedIsThere, RemovedIsGone, EndedIsGone, LookupsTellAll, ShapesTellAccesses, BytesTellReads};

/// Each call keeps what holds of every memory.
pub fn calls_keep_pictures()
    ensures { CallsKeepPictures }
{}

/// A read gives as many bytes as it asks for.
pub fn reads_give_all()
    ensures { ReadsGiveAll }
{}

/// What was written is read there.
pub fn writes_read_back()
    ensures { WritesReadBack }
{}

/// A write leaves the objects of all other names.
pub fn writes_leave_others()
    ensures { WritesLeaveOthers }
{}

/// A copy writes what a read of its other side gives, even where the sides overlap.
pub fn copies_are_writes()
    ensures { CopiesAreWrites }
{}

/// A fill writes one number into each byte.
pub fn fills_are_writes()
    ensures { FillsAreWrites }
{}

/// A new object takes the next name.
pub fn made_takes_next()
    ensures { MadeTakesNext }
{}

/// Null is answered only to a request at run time that is past the limit of live bytes.
pub fn null_is_past_limit()
    ensures { NullIsPastLimit }
{}

/// An object that was released is dead, and no other is.
pub fn released_is_dead()
    ensures { ReleasedIsDead }
{}

/// Bytes that are laid at a place are there, and nothing else changes.
pub fn laid_is_there()
    ensures { LaidIsThere }
{}

/// An object that was added is there, and all others are as before.
pub fn added_is_there()
    ensures { AddedIsThere }
{}

/// An object that was removed is gone, and all others are as before.
pub fn removed_is_gone()
    ensures { RemovedIsGone }
{}

/// The objects of a frame that ended are gone, and all others are as before.
pub fn ended_is_gone()
    ensures { EndedIsGone }
{}

/// Two memories with the same next name, the same shapes and the same bytes are equal.
pub fn lookups_tell_all()
    ensures { LookupsTellAll }
{}

/// Where an access falls, and the size of an object, depend on its shape alone.
pub fn shapes_tell_accesses()
    ensures { ShapesTellAccesses }
{}

/// What a read gives depends on the shape of the object and on the bytes that it covers.
pub fn bytes_tell_reads()
    ensures { BytesTellReads }
{}
