ghost use Rattle.std.specs.Prelude.{◌≡◌, ◌<◌, [], ℕ, Option, Some, None, false, min, length, set, get_or, IfOk, OnOk, OnErr, MatchOption};
ghost use Rattle.std.specs.Str.{bytes_eq};
ghost use Rattle.dq_base.specs.Names.{IsName};
ghost use Rattle.disk_model.specs.Disk.{missing};
ghost use Rattle.disk_model.specs.Memory.{done_to, half_of};
ghost use Rattle.disk_model.specs.Fronts.{front_left};
ghost use Rattle.disk_model.specs.Folder.{file_of, tables_of, read_changed, base_changed, file_put_down, names_put_down, settled, settled_file, all_settled, named_file, has_name, ListsFiles, StandsAt};
ghost use Rattle.disk_model.specs.MemFiles.{MemFile};

use crate::open_calls::UnsyncedEffect;
use crate::stored::Stored;
use dq_base::Name;
use std::alloc::{AllocError, Global};
use std::marker::Model;

/// One file over memory: as it is read, and as it is on stable storage. This many bytes at its front are the same in both.
#[derive(Drop)]
pub struct MemFile {
    name: Name,
    read: Stored,
    base: Stored,
    same: usize,
}

impl Model for MemFile {
    ghost use Rattle.disk_model.specs.MemFiles.{MemFile as MemFileValue};
    ghost use Rattle.disk_model.specs.Fronts.{SameFront};

    ghost Value = { MemFileValue };

    ghost view = { λ f. record { name = f.name; read = f.read; base = f.base } };

    ghost invariant = { λ f. SameFront f.same f.read.bytes f.base.bytes };
}

/// Files over memory, each by its name: as they are read, and as they are on stable storage.
#[derive(Drop)]
pub struct Folder {
    alloc: Global,
    files: Vec<MemFile>,
}

impl Model for Folder {
    ghost use Rattle.std.specs.Prelude.{List};
    ghost use Rattle.disk_model.specs.MemFiles.{MemFile as MemFileValue};

    ghost Value = { List MemFileValue };

    ghost view = { λ a. a.files.items };
}

/// The place of the file of a name.
#[tactic(auto, using(crate::proofs::Standing::stands_read))]
fn place_of(files: &[MemFile], name: &str) -> Option<usize>
    ensures { MatchOption result ((k : ℕ) → k < length files.now → (d : MemFile) → bytes_eq (get_or files.now k d).name name.now ≡ false) (StandsAt name.now files.now) }
{
    for (place, file) in files.iter().enumerate() {
        if file.name() == name {
            return Some(place);
        }
    }
    None
}

/// The place of the file of a name; one that isn't there is given a place.
#[tactic(auto, using(crate::proofs::Standing::opened_at, crate::proofs::Standing::opened_same))]
fn opened(alloc: Global, files: &mut Vec<MemFile>, name: &str) -> Result<usize, AllocError>
    requires { IsName name.now }
    ensures place { IfOk result (StandsAt name.now files.new.items) }
    ensures same { tables_of files.new.items ≡ tables_of files.old.items }
{
    if let Some(place) = place_of(files.as_slice(), name) {
        return Ok(place);
    }
    let Some(own) = Name::new(String::from_str(alloc, name)?) else {
        return Err(AllocError);
    };
    let place = files.len();
    files.push(MemFile::missing(alloc, own))?;
    Ok(place)
}

/// Each name is durable as it is read.
#[tactic(auto, using(crate::proofs::Standing::all_named))]
fn put_names_down(alloc: Global, files: &mut [MemFile])
    ensures { tables_of files.new ≡ names_put_down (tables_of files.old) }
{
    for file in files.iter_mut() {
        file.put_name_down(alloc);
    }
}

/// Copies in which what is durable is also what is read.
fn settled_files(alloc: Global, files: &[MemFile]) -> Result<Vec<MemFile>, AllocError>
    ensures { IfOk result (λ copies. copies.items ≡ all_settled files.now) }
{
    let mut copies = Vec::new(alloc);
    for file in files {
        copies.push(file.settled(alloc)?)?;
    }
    Ok(copies)
}

fn copied_files(alloc: Global, files: &[MemFile]) -> Result<Vec<MemFile>, AllocError>
    ensures { IfOk result (λ copies. copies.items ≡ files.now) }
{
    let mut copies = Vec::new(alloc);
    for file in files {
        copies.push(file.try_clone(alloc)?)?;
    }
    Ok(copies)
}

/// Whether the file of a name is there.
#[tactic(auto, using(crate::proofs::Standing::nowhere))]
fn is_there(files: &[MemFile], name: &str) -> bool
    ensures { result ≡ (file_of files.now name.now).read.there }
{
    match place_of(files, name) {
        Some(place) => files[place].read().is_there(),
        None => false,
    }
}

/// Whether a list has a name.
fn has_name(names: &[Name], name: &str) -> bool
    ensures { result ≡ has_name name.now names.now }
{
    for own in names {
        if own.as_str() == name {
            return true;
        }
    }
    false
}

/// The names of the files that are there, each once.
#[tactic(auto, using(crate::proofs::Listing::listing_none, crate::proofs::Listing::listing_kept, crate::proofs::Listing::listing_more, crate::proofs::Listing::listing_done))]
fn listed(alloc: Global, files: &[MemFile]) -> Result<Vec<Name>, AllocError>
    ensures { IfOk result (λ names. ListsFiles files.now names.items) }
{
    let mut names = Vec::new(alloc);
    for file in files {
        if !is_there(files, file.name()) {
            continue;
        }
        if !has_name(names.as_slice(), file.name()) {
            names.push(file.copied_name(alloc)?)?;
        }
    }
    Ok(names)
}

impl Folder {
    /// No files.
    pub(crate) fn new(alloc: Global) -> Folder
        ensures { result ≡ [] }
    {
        Folder {
            alloc,
            files: Vec::new(alloc),
        }
    }

    /// The file of a name as it is read, if there is or was one.
    #[tactic(auto, using(crate::proofs::Standing::nowhere))]
    pub(crate) fn read(&self, name: &str) -> Option<&Stored>
        ensures { MatchOption result ((file_of self.now name.now).read ≡ missing) (λ file. file.now ≡ (file_of self.now name.now).read) }
    {
        match place_of(self.files.as_slice(), name) {
            Some(place) => Some(self.files[place].read()),
            None => None,
        }
    }

    /// A call changes what is read of a file.
    #[tactic(auto, using(crate::proofs::Standing::read_taken))]
    pub(crate) fn change_read(
        &mut self,
        name: &str,
        effect: &UnsyncedEffect,
    ) -> Result<(), AllocError>
        requires { IsName name.now }
        ensures ok { OnOk result (tables_of self.new ≡ read_changed name.now (done_to effect.now) (tables_of self.old)) }
        ensures err { OnErr result (tables_of self.new ≡ tables_of self.old) }
    {
        let place = opened(self.alloc, &mut self.files, name)?;
        let file = &mut self.files[place];
        file.change_read(effect)
    }

    /// A call changes what is durable of a file.
    #[tactic(auto, using(crate::proofs::Standing::base_taken))]
    pub(crate) fn change_base(
        &mut self,
        name: &str,
        effect: &UnsyncedEffect,
    ) -> Result<(), AllocError>
        requires { IsName name.now }
        ensures ok { OnOk result (tables_of self.new ≡ base_changed name.now (done_to effect.now) (tables_of self.old)) }
        ensures err { OnErr result (tables_of self.new ≡ tables_of self.old) }
    {
        let place = opened(self.alloc, &mut self.files, name)?;
        let file = &mut self.files[place];
        file.change_base(effect)
    }

    /// Half of a call changes what is durable of a file.
    #[tactic(auto, using(crate::proofs::Standing::base_taken))]
    pub(crate) fn change_base_by_half(
        &mut self,
        name: &str,
        effect: &UnsyncedEffect,
    ) -> Result<(), AllocError>
        requires { IsName name.now }
        ensures ok { OnOk result (tables_of self.new ≡ base_changed name.now (done_to (half_of effect.now)) (tables_of self.old)) }
        ensures err { OnErr result (tables_of self.new ≡ tables_of self.old) }
    {
        let place = opened(self.alloc, &mut self.files, name)?;
        let file = &mut self.files[place];
        file.change_base_by_half(effect)
    }

    /// Nothing is read of a file any more.
    #[tactic(auto, using(crate::proofs::Standing::read_done, crate::proofs::Standing::hidden_nowhere))]
    pub(crate) fn discard_unsynced(&mut self, name: &str)
        ensures { tables_of self.new ≡ read_changed name.now (λ file. missing) (tables_of self.old) }
    {
        if let Some(place) = place_of(self.files.as_slice(), name) {
            let file = &mut self.files[place];
            file.discard_unsynced(self.alloc);
        }
    }

    /// What is read of a file is durable. Copies the bytes that were changed since that last was so.
    #[tactic(auto, using(crate::proofs::Standing::put_down_taken))]
    pub(crate) fn commit_synced(&mut self, name: &str) -> Result<(), AllocError>
        requires { IsName name.now }
        ensures ok { OnOk result (tables_of self.new ≡ file_put_down name.now (tables_of self.old)) }
        ensures err { OnErr result (tables_of self.new ≡ tables_of self.old) }
    {
        let place = opened(self.alloc, &mut self.files, name)?;
        let file = &mut self.files[place];
        file.commit_synced()
    }

    /// Each name is durable as it is read.
    pub(crate) fn put_names_down(&mut self)
        ensures { tables_of self.new ≡ names_put_down (tables_of self.old) }
    {
        put_names_down(self.alloc, &mut self.files);
    }

    /// A copy in which what is durable is also what is read.
    pub(crate) fn settled(&self) -> Result<Folder, AllocError>
        ensures { IfOk result (λ folder. tables_of folder ≡ settled (tables_of self.now)) }
    {
        Ok(Folder {
            alloc: self.alloc,
            files: settled_files(self.alloc, self.files.as_slice())?,
        })
    }

    /// A copy.
    pub(crate) fn try_clone(&self) -> Result<Folder, AllocError>
        ensures { IfOk result (λ folder. folder ≡ self.now) }
    {
        Ok(Folder {
            alloc: self.alloc,
            files: copied_files(self.alloc, self.files.as_slice())?,
        })
    }

    /// The names of the files that are there, each once.
    pub(crate) fn names(&self) -> Result<Vec<Name>, AllocError>
        ensures { IfOk result (λ names. ListsFiles self.now names.items) }
    {
        listed(self.alloc, self.files.as_slice())
    }
}

impl UnsyncedEffect {
    // How many bytes at the front of a file are left as they were.
    fn front_left(&self, same: usize) -> usize
        ensures { result ≡ front_left self.now same }
    {
        match self {
            UnsyncedEffect::Creation { .. } => 0,
            UnsyncedEffect::Write { at, .. } => at_most(same, *at),
            UnsyncedEffect::Truncation { length } => at_most(same, *length),
            UnsyncedEffect::Naming | UnsyncedEffect::Removal | UnsyncedEffect::Nothing => same,
        }
    }
}

fn at_most(same: usize, limit: u64) -> usize
    ensures { result ≡ min same limit }
{
    if (same as u64) < limit {
        same
    } else {
        limit as usize
    }
}

impl MemFile {
    fn missing(alloc: Global, name: Name) -> MemFile
        ensures { result ≡ record { name = name; read = missing; base = missing } }
    {
        MemFile {
            name,
            read: Stored::missing(alloc),
            base: Stored::missing(alloc),
            same: 0,
        }
    }

    fn name(&self) -> &str
        ensures { result.now ≡ self.now.name }
    {
        self.name.as_str()
    }

    fn copied_name(&self, alloc: Global) -> Result<Name, AllocError>
        ensures { IfOk result (λ copy. copy ≡ self.now.name) }
    {
        self.name.try_clone(alloc)
    }

    fn read(&self) -> &Stored
        ensures { result.now ≡ self.now.read }
    {
        &self.read
    }

    #[tactic(auto, using(crate::proofs::Fronts::front_done))]
    fn change_read(&mut self, effect: &UnsyncedEffect) -> Result<(), AllocError>
        ensures ok { OnOk result (self.new ≡ record { name = self.old.name; read = done_to effect.now self.old.read; base = self.old.base }) }
        ensures err { OnErr result (self.new ≡ self.old) }
    {
        let left = effect.front_left(self.same);
        self.read.take(effect)?;
        self.same = left;
        Ok(())
    }

    #[tactic(auto, using(crate::proofs::Fronts::front_none))]
    fn change_base(&mut self, effect: &UnsyncedEffect) -> Result<(), AllocError>
        ensures ok { OnOk result (self.new ≡ record { name = self.old.name; read = self.old.read; base = done_to effect.now self.old.base }) }
        ensures err { OnErr result (self.new ≡ self.old) }
    {
        self.same = 0;
        self.base.take(effect)
    }

    #[tactic(auto, using(crate::proofs::Fronts::front_none))]
    fn change_base_by_half(&mut self, effect: &UnsyncedEffect) -> Result<(), AllocError>
        ensures ok { OnOk result (self.new ≡ record { name = self.old.name; read = self.old.read; base = done_to (half_of effect.now) self.old.base }) }
        ensures err { OnErr result (self.new ≡ self.old) }
    {
        self.same = 0;
        self.base.take_half(effect)
    }

    #[tactic(auto, using(crate::proofs::Fronts::front_none))]
    fn discard_unsynced(&mut self, alloc: Global)
        ensures { self.new ≡ record { name = self.old.name; read = missing; base = self.old.base } }
    {
        self.same = 0;
        self.read.vanish(alloc);
    }

    fn commit_synced(&mut self) -> Result<(), AllocError>
        ensures ok { OnOk result (self.new ≡ record { name = self.old.name; read = self.old.read; base = record { there = self.old.base.there; bytes = self.old.read.bytes } }) }
        ensures err { OnErr result (self.new ≡ self.old) }
    {
        self.base.follow(&self.read, self.same)?;
        self.same = self.read.bytes().len();
        Ok(())
    }

    #[tactic(auto, using(crate::proofs::Fronts::front_none))]
    fn put_name_down(&mut self, alloc: Global)
        ensures { self.new ≡ named_file self.old }
    {
        if self.read.is_there() {
            self.base.appear();
        } else {
            self.same = 0;
            self.base.vanish(alloc);
        }
    }

    fn try_clone(&self, alloc: Global) -> Result<MemFile, AllocError>
        ensures { IfOk result (λ copy. copy ≡ self.now) }
    {
        Ok(MemFile {
            name: self.name.try_clone(alloc)?,
            read: self.read.try_clone(alloc)?,
            base: self.base.try_clone(alloc)?,
            same: self.same,
        })
    }

    #[tactic(auto, using(crate::proofs::Fronts::front_none))]
    fn settled(&self, alloc: Global) -> Result<MemFile, AllocError>
        ensures { IfOk result (λ file. file ≡ settled_file self.now) }
    {
        Ok(MemFile {
            name: self.name.try_clone(alloc)?,
            read: self.base.shown(alloc)?,
            base: self.base.shown(alloc)?,
            same: 0,
        })
    }
}
