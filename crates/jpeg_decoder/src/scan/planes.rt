//! The planes that are decided, by the components' indices in the frame (T.81, A.1.1).
#![tactic(auto, using(crate::proofs::Rules::planes, crate::proofs::Rules::joint_planes))]

ghost use Rattle.std.specs.Prelude.{◌≡◌, IfOk, IfSome, map, option_map, replicate, slice_index_or};
ghost use Rattle.std.specs.Prelude.{None, Some, true};
ghost use Rattle.jpeg_decoder.specs.PlanesView.{IsFullJoint, joint_in, planes_in};

use crate::copies::copied_lists;
use jpeg_pixels::joint_planes::{JointPlanes, JointShape};
use std::alloc::{AllocError, Global};
use std::marker::Model;

/// The planes of at most four components: each in memory of its own, or, for like components that
/// one scan had all of, together in one buffer.
#[derive(Drop)]
pub struct Planes {
    own: [Option<Vec<u8>>; 4],
    joint: Option<JointPlanes>,
}

impl Model for Planes {
    ghost use Rattle.std.specs.Prelude.{List, Option, ℕ};

    ghost Value = { List (Option (List ℕ)) };

    ghost use Rattle.jpeg_decoder.specs.PlanesView.{HasFullJoint, decided_in};

    ghost view = { decided_in };

    ghost invariant = { HasFullJoint };
}

/// Returns whether there is no plane in memory of its own.
fn are_none(planes: &[Option<Vec<u8>>; 4]) -> bool
    ensures { result ≡ true → planes_in planes.now ≡ replicate 4 None }
{
    planes.iter().all(|plane| plane.is_none())
}

/// Copies the plane of a component out of a buffer that it shares, if it is there. The only error
/// is a refused allocation.
fn copy_plane(
    alloc: Global,
    joint: &Option<JointPlanes>,
    index: usize,
) -> std::result::Result<Option<Vec<u8>>, AllocError>
    requires { IfSome joint.now IsFullJoint }
    ensures { IfOk result (λ plane. option_map (λ v. v.items) plane
        ≡ slice_index_or (map Some (joint_in joint.now)) index None) }
{
    match joint {
        Some(joint) if index < joint.shape.count => Ok(Some(joint.plane(alloc, index)?)),
        _ => Ok(None),
    }
}

/// Copies a buffer that planes share, if there is one. The only error is a refused allocation.
fn copied_joint(
    alloc: Global,
    joint: &Option<JointPlanes>,
) -> std::result::Result<Option<JointPlanes>, AllocError>
    requires { IfSome joint.now IsFullJoint }
    ensures full { IfOk result (λ copy. IfSome copy IsFullJoint) }
    ensures same { IfOk result (λ copy. joint_in copy ≡ joint_in joint.now) }
{
    match joint {
        Some(joint) => Ok(Some(joint.copied(alloc)?)),
        None => Ok(None),
    }
}

impl Planes {
    ghost use Rattle.std.specs.Prelude.{◌≡◌, ◌<◌, ◌+◌, IfOk, IfSome, None, Some, drop, is_some};
    ghost use Rattle.std.specs.Prelude.{option_map, replicate, slice_index_or, slice_set, true};
    ghost use Rattle.jpeg_pixels.specs.JointPlanes.{joint_planes};
    ghost use Rattle.jpeg_decoder.specs.PlanesView.{IsFullJoint, or_joint};

    /// Makes planes of which none is decided.
    pub fn none() -> Planes
        ensures { result ≡ replicate 4 None }
    {
        Planes {
            own: [None, None, None, None],
            joint: None,
        }
    }

    /// Copies the planes. The only error is a refused allocation.
    pub fn copied(&self, alloc: Global) -> std::result::Result<Planes, AllocError>
        ensures { IfOk result (λ planes. planes ≡ self.now) }
    {
        Ok(Planes {
            own: copied_lists(alloc, &self.own)?,
            joint: copied_joint(alloc, &self.joint)?,
        })
    }

    /// Returns whether the plane of a component is decided.
    pub fn has(&self, index: usize) -> bool
        requires { index < 4 }
        ensures { result ≡ is_some (slice_index_or self.now index None) }
    {
        match &self.joint {
            Some(joint) if index < joint.shape.count => true,
            _ => self.own[index].is_some(),
        }
    }

    /// Returns whether no plane is decided.
    pub fn are_none(&self) -> bool
        ensures { result ≡ true → self.now ≡ replicate 4 None }
    {
        self.joint.is_none() && are_none(&self.own)
    }

    /// Stores the plane of a component.
    pub fn put(&mut self, index: usize, plane: Vec<u8>)
        requires { index < 4 }
        ensures { self.new ≡ slice_set self.old index (Some plane.items) }
    {
        self.own[index] = Some(plane);
    }

    /// Stores the planes of like components, if none is decided.
    pub fn put_joint(&mut self, joint: JointPlanes)
        requires none { self.old ≡ replicate 4 None }
        requires full { IsFullJoint joint }
        ensures { self.new
            ≡ or_joint (replicate 4 None) (joint_planes joint.shape joint.samples.items) }
    {
        self.joint = Some(joint);
    }

    /// Takes the planes of like components, if all planes are in one buffer with this layout.
    pub fn take_joint(&mut self, shape: Option<JointShape>) -> Option<JointPlanes>
        ensures taken { IfSome result (λ joint. IsFullJoint joint × (shape ≡ Some joint.shape)
            × (self.old
            ≡ or_joint (replicate 4 None) (joint_planes joint.shape joint.samples.items))) }
        ensures left { result ≡ None → self.new ≡ self.old }
    {
        match (&self.joint, shape) {
            (Some(joint), Some(shape)) if joint.shape == shape && are_none(&self.own) => {
                self.joint.take()
            }
            _ => None,
        }
    }

    /// Takes the plane of a component, if it is decided; a plane in a shared buffer is copied. The
    /// only error is a refused allocation.
    pub fn take(
        &mut self,
        alloc: Global,
        index: usize,
    ) -> std::result::Result<Option<Vec<u8>>, AllocError>
        requires { index < 4 }
        ensures taken { IfOk result (λ plane. option_map (λ v. v.items) plane
            ≡ slice_index_or self.old index None) }
        ensures left { drop (index + 1) self.new ≡ drop (index + 1) self.old }
    {
        if let Some(plane) = self.own[index].take() {
            return Ok(Some(plane));
        }
        copy_plane(alloc, &self.joint, index)
    }
}
