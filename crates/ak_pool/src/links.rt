//! The frames' links, and the two chains that run along them.
ghost use Rattle.std.specs.Prelude.{◌≡◌, ◌≢◌, ◌<◌, ◌≤◌, ℕ, List, [], length, IfSome, IfNone};
ghost use Rattle.ak_pool.specs.Links.{none, older_at, newer_at};
ghost use Rattle.ak_pool.specs.Chains.{IsName, AreJoined, AreChains, IsInOrder, IsLoose, IsDetached, IsPutFirst, IsPutFree, IsTakenFree, HasNoneFree};

/// Stands in a link where there is no neighbour.
pub const NONE: u32 = u32::MAX;

/// The neighbours of a used frame, by their numbers, or the greatest u32 where there is none.
#[derive(Clone, Copy, Debug, PartialEq, Eq, Drop)]
pub struct Link {
    /// The frame before this one in the list.
    pub newer: u32,
    /// The frame after this one in the list. Of a free frame it is the next free one.
    pub older: u32,
}

/// A link for each frame. The used frames are chained from `first` to `last`, and the free ones from `free`, along
/// `older`.
#[derive(Drop)]
pub struct Chains {
    pub links: Vec<Link>,
    pub first: u32,
    pub last: u32,
    pub free: u32,
}

impl Chains {
    /// Writes what comes after a frame, or the first frame where that is none.
    fn set_older(&mut self, newer: u32, older: u32)
        requires named { IsName (length self.old.links.items) newer }
        requires few { length self.old.links.items ≤ none }
        ensures each { length self.new.links.items ≡ length self.old.links.items }
        ensures own { newer < length self.old.links.items → older_at self.new.links.items newer ≡ older }
        ensures others { (g : ℕ) → g ≢ newer → older_at self.new.links.items g ≡ older_at self.old.links.items g }
        ensures newers { (g : ℕ) → newer_at self.new.links.items g ≡ newer_at self.old.links.items g }
        ensures first { newer ≡ none → self.new.first ≡ older }
        ensures first_stays { newer ≢ none → self.new.first ≡ self.old.first }
        ensures ends { (self.new.last ≡ self.old.last) × (self.new.free ≡ self.old.free) }
    {
        if newer == NONE {
            self.first = older;
        } else {
            self.links[newer as usize].older = older;
        }
    }

    /// Writes what comes before a frame, or the last frame where that is none.
    fn set_newer(&mut self, older: u32, newer: u32)
        requires named { IsName (length self.old.links.items) older }
        requires few { length self.old.links.items ≤ none }
        ensures each { length self.new.links.items ≡ length self.old.links.items }
        ensures own { older < length self.old.links.items → newer_at self.new.links.items older ≡ newer }
        ensures others { (g : ℕ) → g ≢ older → newer_at self.new.links.items g ≡ newer_at self.old.links.items g }
        ensures olders { (g : ℕ) → older_at self.new.links.items g ≡ older_at self.old.links.items g }
        ensures last { older ≡ none → self.new.last ≡ newer }
        ensures last_stays { older ≢ none → self.new.last ≡ self.old.last }
        ensures ends { (self.new.first ≡ self.old.first) × (self.new.free ≡ self.old.free) }
    {
        if older == NONE {
            self.last = newer;
        } else {
            self.links[older as usize].newer = newer;
        }
    }

    /// Makes two frames neighbours. Where the newer one is none, the older one becomes the first, and where the older
    /// one is none, the newer one becomes the last.
    fn join(&mut self, newer: u32, older: u32)
        requires newer { IsName (length self.old.links.items) newer }
        requires older { IsName (length self.old.links.items) older }
        requires few { length self.old.links.items ≤ none }
        ensures { AreJoined self.old self.new newer older }
    {
        self.set_older(newer, older);
        self.set_newer(older, newer);
    }

    /// Takes a frame out of the used ones.
    pub fn detach(&mut self, frame: u32)
        requires { IsInOrder self.old frame }
        ensures each { length self.new.links.items ≡ length self.old.links.items }
        ensures chains { IsDetached self.old self.new frame }
    {
        let Link { newer, older } = self.links[frame as usize];
        self.join(newer, older);
    }

    /// Puts a frame that is in neither chain before the used ones.
    pub fn put_first(&mut self, frame: u32)
        requires { IsLoose self.old frame }
        ensures each { length self.new.links.items ≡ length self.old.links.items }
        ensures chains { IsPutFirst self.old self.new frame }
    {
        let second = self.first;
        self.join(NONE, frame);
        self.join(frame, second);
    }

    /// Puts a frame that is in neither chain before the free ones.
    pub fn put_free(&mut self, frame: u32)
        requires { IsLoose self.old frame }
        ensures each { length self.new.links.items ≡ length self.old.links.items }
        ensures chains { IsPutFree self.old self.new frame }
    {
        self.links[frame as usize].older = self.free;
        self.free = frame;
    }

    /// Takes the first of the free frames out of them, or none where no frame is free.
    pub fn take_free(&mut self) -> Option<u32>
        requires { (order : List ℕ) × (vacant : List ℕ) × AreChains self.old [] order vacant }
        ensures each { length self.new.links.items ≡ length self.old.links.items }
        ensures none { IfNone result ((self.new ≡ self.old) × HasNoneFree self.old) }
        ensures some { IfSome result (λ f. IsTakenFree self.old self.new f) }
    {
        let frame = self.free;
        if frame == NONE {
            return None;
        }
        self.free = self.links[frame as usize].older;
        Some(frame)
    }
}
