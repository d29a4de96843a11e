// The mesh: its vertices and faces, as the lines name them.
use std::alloc::{AllocError, Global};

const MOST_VERTICES: usize = 2000;

const MOST_FACES: usize = 1000;

#[derive(Drop)]
pub struct Mesh {
    // three numbers a vertex, and three vertices a face
    pub vertices: Vec<f32>,
    pub indices: Vec<u32>,
    pub areas: Vec<u8>,
    // the area of the next face
    pub area: u8,
}

impl Mesh {
    // There is room for all of it, so that no command runs out of memory.
    pub fn new(alloc: Global) -> Result<Mesh, AllocError> {
        Ok(Mesh {
            vertices: Vec::with_capacity(alloc, 3 * MOST_VERTICES)?,
            indices: Vec::with_capacity(alloc, 3 * MOST_FACES)?,
            areas: Vec::with_capacity(alloc, MOST_FACES)?,
            area: 255,
        })
    }

    // Forgets vertices and faces.
    pub fn clear(&mut self) {
        self.vertices.clear();
        self.indices.clear();
        self.areas.clear();
    }

    // Answers whether there was room.
    pub fn add_vertex(&mut self, vertex: [f32; 3]) -> Result<bool, AllocError> {
        if self.vertices.len() >= 3 * MOST_VERTICES {
            return Ok(false);
        }
        self.vertices.extend_from_slice(&vertex)?;
        Ok(true)
    }

    // Lines count vertices from 1: what is 0 there names none. Answers whether there was room.
    pub fn add_face(&mut self, face: [u32; 3]) -> Result<bool, AllocError> {
        if self.areas.len() >= MOST_FACES {
            return Ok(false);
        }
        for vertex in face {
            self.indices.push(vertex.wrapping_sub(1))?;
        }
        self.areas.push(self.area)?;
        Ok(true)
    }
}
