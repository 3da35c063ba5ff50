//! The law of the style sheet.

ghost use Rattle.std.specs.Prelude.{◌≡◌, ℕ, Some, slice_get};
ghost use Rattle.draw_shapes.specs.declared.class.Class.{Class};
ghost use Rattle.draw_shapes.specs.declared.class.TheConstants.{CLASSES};

/// The style sheet lists each class, so that none is without its look.
pub fn each_class_is_listed()
    ensures { (look : Class) → (place : ℕ) × (slice_get CLASSES place ≡ Some look) }
{}
