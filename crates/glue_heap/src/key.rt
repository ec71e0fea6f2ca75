//! The parts of the object table, by their keys.
ghost use Rattle.std.specs.Prelude.{◌≡◌, IfSome, Some};
ghost use Rattle.glue_heap.specs.HeapKeys as spec;

/// A part of the object table.
#[derive(Clone, Copy, Debug, PartialEq, Eq, PartialOrd, Ord, Hash)]
pub enum HeapKey {
    /// `heap`: the list of slots.
    Heap,
    /// `heap_next`: the first free slot.
    HeapNext,
    /// `stack_pointer`: the slot from which on objects are lent.
    StackPointer,
    /// `addHeapObject`, which puts an object into a free slot and answers its number.
    AddHeapObject,
    /// `addBorrowedObject`, which lends an object and answers its number.
    BorrowedObjects,
    /// `dropObject`, which makes a slot free.
    DropRef,
    /// `getObject`, which answers the object of a number.
    GetObject,
    /// `takeObject`, which answers the object of a number and makes its slot free.
    TakeObject,
}

impl HeapKey {
    /// The key as a text.
    pub fn text(self) -> &'static str
        ensures text { result.now ≡ spec.heap_key_text self }
        ensures read { spec.heap_key_of result.now ≡ Some self }
    {
        match self {
            HeapKey::Heap => "heap",
            HeapKey::HeapNext => "heap_next",
            HeapKey::StackPointer => "stack_pointer",
            HeapKey::AddHeapObject => "add_heap_object",
            HeapKey::BorrowedObjects => "borrowed_objects",
            HeapKey::DropRef => "drop_ref",
            HeapKey::GetObject => "get_object",
            HeapKey::TakeObject => "take_object",
        }
    }

    /// The key of a text, or None where it is no key of the object table.
    pub fn from_text(text: &str) -> Option<HeapKey>
        ensures key { result ≡ spec.heap_key_of text.now }
        ensures text { IfSome result (λ key. spec.heap_key_text key ≡ text.now) }
    {
        match text {
            "heap" => Some(HeapKey::Heap),
            "heap_next" => Some(HeapKey::HeapNext),
            "stack_pointer" => Some(HeapKey::StackPointer),
            "add_heap_object" => Some(HeapKey::AddHeapObject),
            "borrowed_objects" => Some(HeapKey::BorrowedObjects),
            "drop_ref" => Some(HeapKey::DropRef),
            "get_object" => Some(HeapKey::GetObject),
            "take_object" => Some(HeapKey::TakeObject),
            _ => None,
        }
    }

    /// The name that the part declares in the glue file.
    pub fn name(self) -> &'static str
        ensures name { result.now ≡ spec.heap_name self }
    {
        match self {
            HeapKey::Heap => "heap",
            HeapKey::HeapNext => "heap_next",
            HeapKey::StackPointer => "stack_pointer",
            HeapKey::AddHeapObject => "addHeapObject",
            HeapKey::BorrowedObjects => "addBorrowedObject",
            HeapKey::DropRef => "dropObject",
            HeapKey::GetObject => "getObject",
            HeapKey::TakeObject => "takeObject",
        }
    }
}
