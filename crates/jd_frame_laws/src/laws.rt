ghost use Rattle.jd_frame_laws.specs.Laws.{FramesFit};

use jd_jml_meaning::scoped_is_closed;
use jd_specifications::resolved_is_scoped;

/// The locations that a case may assign can be put under the two binders of a frame's condition: no index in them is raised.
pub fn frames_fit()
    ensures { FramesFit }
{
    resolved_is_scoped();
    scoped_is_closed();
}
