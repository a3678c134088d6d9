//! Whether schemas are the same.
ghost use Rattle.std.specs.Prelude.{◌≡◌};
ghost use Rattle.df_frame.specs.FrameParts.{schemas_of};
ghost use Rattle.df_state.specs.Schemas as schemas_spec;

use df_frame::Frame;
use df_value::{Schema, same};

/// Whether two schemas are the same.
pub fn schema_eq(a: &Schema, b: &Schema) -> bool
    ensures { result ≡ schemas_spec.schema_eq a.now b.now }
{
    same(a, b)
}

/// Whether these are the schemas of the frames.
pub fn are_schemas(schemas: &[Schema], frames: &[Frame]) -> bool
    ensures { result ≡ schemas_spec.schemas_eq schemas.now (schemas_of frames.now) }
{
    if schemas.len() != frames.len() {
        return false;
    }
    for i in 0..frames.len() {
        if !schema_eq(&schemas[i], frames[i].schema()) {
            return false;
        }
    }
    true
}
